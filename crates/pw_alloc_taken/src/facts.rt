//! What is known of a function's temporaries before they get registers.

ghost use Rattle.std.specs.Prelude.{◌≡◌, ◌+◌, ◌<◌, ◌↔◌, ℕ, [], List, Some, length, slice_get, vec_len, All, Contains, IfOk, OnOk};
ghost use Rattle.pw_live_fronts.specs.Blocks.{IsOutline};
ghost use Rattle.pw_alloc_taken.specs.Makers.{AreBelow, AreDefinitions};
ghost use Rattle.pw_alloc_taken.specs.Knowing.{AreFacts};

use pw_items::Items;
use pw_live_fronts::Outline;
use pw_live_held::{Liveness, find_liveness};
use std::alloc::{AllocError as NoMemory, Global};

/// Where temporaries are live and where they are written.
#[derive(Drop)]
pub struct Facts {
    pub liveness: Liveness,
    /// Of each temporary the points directly behind its definitions.
    pub definitions: Vec<Items<usize>>,
}

/// No definitions yet, of so many temporaries.
fn no_definitions(alloc: Global, temps: u32) -> Result<Vec<Items<usize>>, NoMemory>
    ensures count { IfOk result (λ v. vec_len v ≡ temps) }
    ensures none { IfOk result (λ v. All (λ (row : List ℕ). row ≡ []) v.items) }
{
    let mut rows = Vec::new(alloc);
    for _ in 0..temps {
        rows.push(Items::new(alloc))?;
    }
    Ok(rows)
}

/// Puts a point to those of the temporary that is written directly before it, if one is.
fn put_point(rows: &mut Vec<Items<usize>>, makers: &[Option<u32>], p: usize) -> Result<(), NoMemory>
    requires point { p < length makers.now }
    requires makers { AreBelow (vec_len rows.old) makers.now }
    requires before { AreDefinitions makers.now p rows.old.items }
    ensures count { vec_len rows.new ≡ vec_len rows.old }
    ensures after { OnOk result (AreDefinitions makers.now (p + 1) rows.new.items) }
{
    match makers[p] {
        Some(t) => {
            rows[t as usize].push(p)?;
            Ok(())
        }
        None => Ok(()),
    }
}

/// Of each temporary the points directly behind its definitions.
fn definitions(
    alloc: Global,
    makers: &[Option<u32>],
    temps: u32,
) -> Result<Vec<Items<usize>>, NoMemory>
    requires { AreBelow temps makers.now }
    ensures count { IfOk result (λ v. vec_len v ≡ temps) }
    ensures each { IfOk result (λ v. (t p : ℕ) (row : List ℕ) → slice_get v.items t ≡ Some row → Contains row p ↔ (slice_get makers.now p ≡ Some (Some t))) }
{
    let mut rows = no_definitions(alloc, temps)?;
    for p in 0..makers.len() {
        put_point(&mut rows, makers, p)?;
    }
    Ok(rows)
}

/// What allocation has to know of a function: at which points each temporary is live, and the points directly behind
/// its definitions. Fails only for want of memory.
pub fn find_facts(alloc: Global, f: &Outline) -> Result<Facts, NoMemory>
    requires { IsOutline f.now }
    ensures { IfOk result (AreFacts f.now) }
{
    let liveness = find_liveness(alloc, f)?;
    let definitions = definitions(alloc, &liveness.makers, f.temps())?;
    Ok(Facts {
        liveness,
        definitions,
    })
}
