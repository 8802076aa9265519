//! The places of temporaries.

ghost use Rattle.std.specs.Prelude.{◌≡◌, ◌<◌, ◌+◌, ◌*◌, ◌^◌, length, IfOk, OnOk};
ghost use Rattle.pw_alloc.specs.Allocation.{in_frame};
ghost use Rattle.pw_alloc_temps.specs.Temporaries.{placed};

use pw_alloc::{Place, below};
use pw_items::Items;
use std::alloc::{AllocError, Global};

/// A register, or else the next word of the frame for temporaries.
pub(crate) fn places(
    alloc: Global,
    head: u32,
    saved: u32,
    registers: &[Option<u8>],
) -> Result<(Items<Place>, u32), AllocError>
    requires { head + 4 * saved + 4 * length registers.now < 2 ^ 31 }
    ensures value { IfOk result (λ r. r.0 ≡ placed head saved 0 registers.now) }
    ensures count { IfOk result (λ r. r.1 ≡ in_frame (placed head saved 0 registers.now)) }
{
    let mut places = Items::new(alloc);
    let mut count = 0;
    for &given in registers {
        match given {
            Some(r) => places.push(Place::Reg(r))?,
            None => {
                places.push(Place::Slot(below(head + 4 * saved + 4 * (count + 1))))?;
                count += 1;
            }
        }
    }
    Ok((places, count))
}
