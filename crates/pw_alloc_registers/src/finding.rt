//! The registers of the temporaries of a directed function.

ghost use Rattle.std.specs.Prelude.{◌≡◌, ◌<◌, ◌++◌, ℕ, List, map, All, IfOk};
ghost use Rattle.pw_webflow.specs.ValidWebs.{IsWebFn};
ghost use Rattle.pw_db.specs.Database.{IsDirectives};
ghost use Rattle.pw_alloc_registers.specs.Masks.{IsMaskOf};
ghost use Rattle.pw_alloc_temps.specs.Temporaries.{cluster_of, registers_in};

use crate::colouring::{Masks, registers};
use crate::outline::outline_of;
use pw_alloc_masks::with_register;
use pw_db::{Directives, Role, Web};
use pw_webflow::WebFn;
use std::alloc::{AllocError, Global};

/// The registers of webs, as a set.
fn webs_mask(webs: &[(Web, Role)]) -> u32
    requires { All (λ w. w.0.reg < 32) webs.now }
    ensures { IsMaskOf result (map (λ w. w.0.reg) webs.now) }
{
    let mut mask = 0;
    for web in webs {
        let more = with_register(mask, web.0.reg);
        mask = more;
    }
    mask
}

/// A set with more registers.
fn with_registers(mask: u32, registers: &[u8]) -> u32
    requires { All (λ r. r < 32) registers.now }
    ensures { (rs : List ℕ) → IsMaskOf mask rs → IsMaskOf result (rs ++ registers.now) }
{
    let mut all = mask;
    for register in registers {
        let more = with_register(all, *register);
        all = more;
    }
    all
}

/// The registers that a function shares with its cluster, as a set.
fn cluster_mask(directives: &Directives) -> u32
    requires { IsDirectives directives.now }
    ensures { IsMaskOf result (cluster_of directives.now) }
{
    let free = with_registers(0, directives.free.as_slice());
    with_registers(free, directives.saves.as_slice())
}

/// The register of each temporary of a function, or that it has none.
pub fn find_registers(alloc: Global, f: &WebFn) -> Result<Vec<Option<u8>>, AllocError>
    requires { IsWebFn f.now }
    ensures { IfOk result (λ v. v.items ≡ registers_in f.now) }
{
    let outline = outline_of(alloc, f)?;
    let webs = webs_mask(f.directives.webs.as_slice());
    let cluster = cluster_mask(&f.directives);
    let registers = registers(alloc, &outline, Masks { webs, cluster })?;
    Ok(registers)
}
