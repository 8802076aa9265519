//! The registers of temporaries: each in turn gets the first that it may have and that is not taken.

ghost use Rattle.std.specs.Prelude.{◌≡◌, ◌<◌, ◌-◌, ◌++◌, ◌&&◌, not, ℕ, List, None, false, IfOk, IfSome};
ghost use Rattle.std.specs.List.{find, range_with_len};
ghost use Rattle.pw_live_fronts.specs.Blocks.{IsOutline};
ghost use Rattle.pw_alloc_masks.specs.Masks.{in_mask};
ghost use Rattle.pw_alloc_taken.specs.Knowing.{AreFacts, AreSized, AreGiven};
ghost use Rattle.pw_db.specs.Limits.{kept_registers};
ghost use Rattle.pw_alloc_registers.specs.Masks.{IsMaskOf};
ghost use Rattle.pw_alloc_temps.specs.Registers.{shared, unshared, of_temporaries, allowed, is_taken, with_register, register_of, registers};

use pw_alloc_masks::{both, has_register};
use pw_alloc_taken::{Facts, Given, find_facts, give, taken};
use pw_alloc_weights::ordered;
use pw_db::{FIRST_REGISTER, LAST_REGISTER, LAST_TEMPORARY};
use pw_live_fronts::Outline;
use pw_live_held::is_held;
use std::alloc::{AllocError as NoMemory, Global};

/// Whether a register is not in a set.
fn is_free(away: u32, r: u8) -> bool
    requires { r < 32 }
    ensures { result ≡ not (in_mask away r) }
{
    !has_register(away, r)
}

/// The first of some registers that is not in a set.
fn first_in(away: u32, from: u8, to: u8) -> Option<u8>
    requires { to < 32 }
    ensures first { result ≡ find (λ r. not (in_mask away r)) (range_with_len from (to - from)) }
    ensures low { IfSome result (λ r. r < 32) }
{
    for r in from..to {
        if is_free(away, r) {
            return Some(r);
        }
    }
    None
}

/// Whether a register is in one set and not in another.
fn is_free_of(cluster: u32, away: u32, r: u8) -> bool
    requires { r < 32 }
    ensures { result ≡ (in_mask cluster r && not (in_mask away r)) }
{
    has_register(cluster, r) && !has_register(away, r)
}

/// The first register that a callee keeps which is in one set and not in another.
fn first_shared(cluster: u32, away: u32) -> Option<u8>
    ensures first { result ≡ find (λ r. in_mask cluster r && not (in_mask away r)) kept_registers }
    ensures low { IfSome result (λ r. r < 32) }
{
    for r in FIRST_REGISTER..LAST_REGISTER + 1 {
        if is_free_of(cluster, away, r) {
            return Some(r);
        }
    }
    None
}

/// The first register that a callee keeps which is in neither set.
fn first_unshared(cluster: u32, away: u32) -> Option<u8>
    ensures first { (cs : List ℕ) → IsMaskOf cluster cs → result ≡ find (λ r. not (in_mask away r)) (unshared cs) }
    ensures low { IfSome result (λ r. r < 32) }
{
    let both = both(cluster, away);
    first_in(both, FIRST_REGISTER, LAST_REGISTER + 1)
}

/// The first register that a callee keeps which is not in a set, those first that the function shares.
fn first_kept(cluster: u32, away: u32) -> Option<u8>
    ensures first { (cs : List ℕ) → IsMaskOf cluster cs → result ≡ find (λ r. not (in_mask away r)) (shared cs ++ unshared cs) }
    ensures low { IfSome result (λ r. r < 32) }
{
    match first_shared(cluster, away) {
        Some(r) => Some(r),
        None => first_unshared(cluster, away),
    }
}

/// The first of the registers of temporaries that is not in a set, those first that calls may change.
fn first_of_all(cluster: u32, away: u32) -> Option<u8>
    ensures first { (cs : List ℕ) → IsMaskOf cluster cs → result ≡ find (λ r. not (in_mask away r)) (of_temporaries cs false) }
    ensures low { IfSome result (λ r. r < 32) }
{
    match first_in(away, LAST_REGISTER + 1, LAST_TEMPORARY + 1) {
        Some(r) => Some(r),
        None => first_kept(cluster, away),
    }
}

/// The first of the registers of temporaries that is not in a set: over calls one that every callee keeps.
fn first_free(held: bool, cluster: u32, away: u32) -> Option<u8>
    ensures first { (cs : List ℕ) → IsMaskOf cluster cs → result ≡ find (λ r. not (in_mask away r)) (of_temporaries cs held) }
    ensures low { IfSome result (λ r. r < 32) }
{
    if held {
        first_unshared(cluster, away)
    } else {
        first_of_all(cluster, away)
    }
}

/// Gives a temporary the first register that it may have and that is not taken, if there is one.
fn colour(given: &mut Given, facts: &Facts, f: &Outline, masks: Masks, t: u32)
    requires facts { AreFacts f.now facts.now }
    requires sized { AreSized f.now given.old }
    requires temp { t < f.now.temps }
    ensures sized { AreSized f.now given.new }
    ensures given { (ws cs : List ℕ) (gs : List (ℕ × ℕ)) → IsMaskOf masks.webs ws → IsMaskOf masks.cluster cs → AreGiven f.now gs given.old → register_of gs t ≡ None
        → AreGiven f.now (with_register t (find (λ r. not (is_taken f.now gs t r)) (allowed f.now ws cs t)) gs) given.new }
{
    let taken = taken(given, facts, f, t);
    let held = is_held(&facts.liveness, f, t);
    let away = both(masks.webs, taken);
    match first_free(held, masks.cluster, away) {
        Some(r) => give(given, facts, f, t, r),
        None => (),
    }
}

/// Registers of a function, as sets: those of its webs, and those that it shares with its cluster.
#[derive(Clone, Copy)]
pub(crate) struct Masks {
    pub webs: u32,
    pub cluster: u32,
}

/// The register of each temporary of a function, beside those of its webs.
pub(crate) fn registers(
    alloc: Global,
    f: &Outline,
    masks: Masks,
) -> Result<Vec<Option<u8>>, NoMemory>
    requires { IsOutline f.now }
    ensures { IfOk result (λ v. (ws cs : List ℕ) → IsMaskOf masks.webs ws → IsMaskOf masks.cluster cs → v.items ≡ registers f.now ws cs) }
{
    let facts = find_facts(alloc, f)?;
    let order = ordered(alloc, f)?;
    let points = facts.liveness.makers.len();
    let mut given = Given::new(alloc, f, points)?;
    let count = order.len();
    for place in 0..count {
        colour(&mut given, &facts, f, masks, order[place]);
    }
    let Given {
        registers,
        occupied: _,
        made: _,
        params: _,
    } = given;
    Ok(registers)
}
