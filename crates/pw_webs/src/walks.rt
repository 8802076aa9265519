//! Walks over the calls of a program.

ghost use Rattle.std.specs.Prelude.{◌≡◌, ℕ, ◌<◌, ◌⊎◌, ◌↔◌, [], ◌∷◌, All, Contains, length, IfOk, OnOk};
ghost use Rattle.pw_fix.specs.Row.{Holds};
ghost use Rattle.pw_webs.specs.Walking.{AreSteps, Chain, IsNext, IsReached, IsVisit};

use pw_fix::BitRow;
use pw_graph::numbers;
use pw_items::Items;
use std::alloc::{AllocError as NoMemory, Global};

/// Finds a function that stands within a set, and lets it wait if it is new.
fn find(
    place: usize,
    within: &BitRow,
    found: &mut BitRow,
    waiting: &mut Vec<usize>,
) -> Result<(), NoMemory>
    requires { place < found.old.len }
    ensures { OnOk result (IsVisit (place ∷ []) within.now found.old found.new waiting.old.items waiting.new.items) }
{
    if !within.contains(place) {
        return Ok(());
    }
    if !found.insert(place) {
        return Ok(());
    }
    waiting.push(place)?;
    Ok(())
}

/// Finds the functions of a row that stand within a set, and lets those that are new wait.
fn visit(
    row: &[u32],
    within: &BitRow,
    found: &mut BitRow,
    waiting: &mut Vec<usize>,
) -> Result<(), NoMemory>
    requires { All (λ b. b < found.old.len) row.now }
    ensures { OnOk result (IsVisit row.now within.now found.old found.new waiting.old.items waiting.new.items) }
{
    for place in row {
        find(*place as usize, within, found, waiting)?;
    }
    Ok(())
}

/// The functions to which steps within a set lead from these, and these.
pub(crate) fn closure(
    alloc: Global,
    steps: &[Items<u32>],
    within: &BitRow,
    from: BitRow,
) -> Result<BitRow, NoMemory>
    requires steps { AreSteps steps.now }
    requires count { from.len ≡ length steps.now }
    ensures length { IfOk result (λ found. found.len ≡ from.len) }
    ensures holds { IfOk result (λ found. (f : ℕ) → Holds found f ↔ Chain steps.now within.now from f) }
{
    let mut waiting = numbers(alloc, &from)?;
    let mut found = from;
    while let Some(place) = waiting.pop() {
        visit(steps[place].as_slice(), within, &mut found, &mut waiting)?;
    }
    Ok(found)
}

/// Adds the functions of a row.
pub(crate) fn add_row(found: &mut BitRow, row: &[u32])
    requires { All (λ b. b < found.old.len) row.now }
    ensures length { found.new.len ≡ found.old.len }
    ensures holds { (b : ℕ) → Holds found.new b ↔ (Holds found.old b ⊎ Contains row.now b) }
{
    for place in row {
        found.insert(*place as usize);
    }
}

/// The functions to which one step leads from these.
fn next(alloc: Global, steps: &[Items<u32>], from: &BitRow) -> Result<BitRow, NoMemory>
    requires steps { AreSteps steps.now }
    requires count { from.now.len ≡ length steps.now }
    ensures length { IfOk result (λ found. found.len ≡ from.now.len) }
    ensures holds { IfOk result (λ found. (f : ℕ) → Holds found f ↔ IsNext steps.now from.now f) }
{
    let mut found = BitRow::new(alloc, from.len)?;
    let places = numbers(alloc, from)?;
    for place in &places {
        add_row(&mut found, steps[*place].as_slice());
    }
    Ok(found)
}

/// The functions to which at least one step leads from these.
pub(crate) fn reached(
    alloc: Global,
    steps: &[Items<u32>],
    from: &BitRow,
) -> Result<BitRow, NoMemory>
    requires steps { AreSteps steps.now }
    requires count { from.now.len ≡ length steps.now }
    ensures length { IfOk result (λ found. found.len ≡ from.now.len) }
    ensures holds { IfOk result (λ found. (f : ℕ) → Holds found f ↔ IsReached steps.now from.now f) }
{
    let all = BitRow::full(alloc, from.len)?;
    let first = next(alloc, steps, from)?;
    closure(alloc, steps, &all, first)
}
