//! A function with places.

ghost use Rattle.std.specs.Prelude.{◌≡◌, IfOk};
ghost use Rattle.pw_webflow.specs.ValidWebs.{IsWebFn};
ghost use Rattle.pw_alloc.specs.ValidPlaces.{IsLocated};
ghost use Rattle.pw_alloc_temps.specs.Temporaries.{allocated};

use crate::places::places;
use crate::saving::saved;
use pw_alloc::{Located, head_size, last_reach, slots_begin};
use pw_alloc_registers::find_registers;
use pw_alloc_temps::laws::{allocation_is_lawful, registers_keep_apart};
use pw_webflow::WebFn;
use std::alloc::{AllocError, Global};

/// A function with places: registers by weight, and words of the frame for the temporaries that get none.
#[tactic(auto, unfolding(pw_alloc_temps::specs::Temporaries::allocated))]
fn locate(alloc: Global, f: WebFn) -> Result<Located, AllocError>
    requires { IsWebFn f }
    ensures { IfOk result (λ l. l ≡ allocated f) }
{
    allocation_is_lawful();
    registers_keep_apart();
    let registers = find_registers(alloc, &f)?;
    let head = head_size(&f);
    let saved = saved(alloc, &f.directives, &registers)?;
    let kept = saved.len() as u32;
    let (places, count) = places(alloc, head, kept, &registers)?;
    let begin = slots_begin(head, kept, count);
    let frame = last_reach(begin, f.slots.as_slice());
    Ok(Located {
        body: f,
        places,
        saved,
        frame,
    })
}

/// A lawful function with lawful places. It moves into what is answered.
pub fn allocate_owned(alloc: Global, f: WebFn) -> Result<Located, AllocError>
    requires { IsWebFn f }
    ensures value { IfOk result (λ l. l ≡ allocated f) }
    ensures lawful { IfOk result (λ l. IsLocated l) }
{
    allocation_is_lawful();
    let l = locate(alloc, f)?;
    Ok(l)
}
