//! The region of a global.

ghost use Rattle.std.specs.Prelude.{◌≡◌, ℕ, ◌<◌, ◌⊎◌, ◌↔◌, All, Contains, length, IsTrue, IfOk, OnOk, vec_len};
ghost use Rattle.std.specs.Bool.{MatchBool};
ghost use Rattle.pw_fix.specs.Row.{Holds};
ghost use Rattle.pw_graph.specs.CallGraph.{IsGraph, References, IsReachedFromUser, ReachesUser, AreRefSets};
ghost use Rattle.pw_webs.specs.Webs.{Region};
ghost use Rattle.pw_webs.specs.Walking.{AreSteps, IsMarked, IsOutside, IsBetween, AreNeighbours};

use crate::neighbours::Neighbours;
use crate::walks::{add_row, reached};
use pw_fix::BitRow;
use pw_graph::{CallGraph, RefSets, numbers};
use pw_items::Items;
use std::alloc::{AllocError as NoMemory, Global};

/// Whether a function refers to a global, or stands between two that do.
fn is_user(sets: &RefSets, place: usize, global: usize) -> bool
    requires itself { place < vec_len sets.now.l_ref.rows }
    requires from_callers { place < vec_len sets.now.p_ref.rows }
    requires from_callees { place < vec_len sets.now.c_ref.rows }
    ensures { IsTrue result ↔ IsMarked sets.now place global }
{
    sets.l_ref.contains(place, global)
        || (sets.p_ref.contains(place, global) && sets.c_ref.contains(place, global))
}

/// Adds a function, where it refers to a global or stands between two that do.
fn add_user(row: &mut BitRow, sets: &RefSets, place: usize, global: usize)
    requires within { place < row.old.len }
    requires itself { place < vec_len sets.now.l_ref.rows }
    requires from_callers { place < vec_len sets.now.p_ref.rows }
    requires from_callees { place < vec_len sets.now.c_ref.rows }
    ensures length { row.new.len ≡ row.old.len }
    ensures holds { (f : ℕ) → Holds row.new f ↔ (Holds row.old f ⊎ ((f ≡ place) × IsMarked sets.now place global)) }
{
    if !is_user(sets, place, global) {
        return;
    }
    row.insert(place);
}

/// The functions that refer to a global, and those between two that do.
fn users(
    alloc: Global,
    graph: &CallGraph,
    sets: &RefSets,
    global: usize,
) -> Result<BitRow, NoMemory>
    requires { AreRefSets graph.now sets.now }
    ensures length { IfOk result (λ row. row.len ≡ length graph.now.functions) }
    ensures holds { IfOk result (λ row. (f : ℕ) → Holds row f ↔ (References graph.now f global ⊎ (IsReachedFromUser graph.now f global × ReachesUser graph.now f global))) }
{
    let count = graph.functions.len();
    let mut row = BitRow::new(alloc, count)?;
    for place in 0..count {
        add_user(&mut row, sets, place, global);
    }
    Ok(row)
}

/// Whether one of these stands in a set.
pub(crate) fn is_any_within(row: &[u32], set: &BitRow) -> bool
    ensures { MatchBool result ((b : ℕ) × Contains row.now b × Holds set.now b) ((b : ℕ) → Contains row.now b → ¬ Holds set.now b) }
{
    for place in row {
        if set.contains(*place as usize) {
            return true;
        }
    }
    false
}

/// Adds a function's callers, where one of them stands in a set.
fn add_called(found: &mut BitRow, row: &[u32], set: &BitRow)
    requires { All (λ b. b < found.old.len) row.now }
    ensures length { found.new.len ≡ found.old.len }
    ensures holds { (f : ℕ) → Holds found.new f ↔ (Holds found.old f ⊎ (Contains row.now f × ((b : ℕ) × Contains row.now b × Holds set.now b))) }
{
    if !is_any_within(row, set) {
        return;
    }
    add_row(found, row);
}

/// All callers of those of a set that have a caller in it.
fn outside(alloc: Global, callers: &[Items<u32>], set: &BitRow) -> Result<BitRow, NoMemory>
    requires steps { AreSteps callers.now }
    requires count { set.now.len ≡ length callers.now }
    ensures length { IfOk result (λ found. found.len ≡ set.now.len) }
    ensures holds { IfOk result (λ found. (f : ℕ) → Holds found f ↔ IsOutside callers.now set.now f) }
{
    let mut found = BitRow::new(alloc, set.len)?;
    let places = numbers(alloc, set)?;
    for place in &places {
        add_called(&mut found, callers[*place].as_slice(), set);
    }
    Ok(found)
}

/// Adds a place that stands in both of two sets.
fn add_both(set: &mut BitRow, place: usize, one: &BitRow, other: &BitRow)
    requires { place < set.old.len }
    ensures length { set.new.len ≡ set.old.len }
    ensures holds { (f : ℕ) → Holds set.new f ↔ (Holds set.old f ⊎ ((f ≡ place) × Holds one.now place × Holds other.now place)) }
{
    if !one.contains(place) {
        return;
    }
    if !other.contains(place) {
        return;
    }
    set.insert(place);
}

/// Adds what stands in both of two sets.
fn add_common(set: &mut BitRow, one: &BitRow, other: &BitRow)
    requires { one.now.len ≡ set.old.len }
    ensures length { set.new.len ≡ set.old.len }
    ensures holds { (f : ℕ) → Holds set.new f ↔ (Holds set.old f ⊎ (Holds one.now f × Holds other.now f)) }
{
    for place in 0..one.len {
        add_both(set, place, one, other);
    }
}

/// Adds what stands on a path between two of a set.
fn add_between(
    alloc: Global,
    graph: &CallGraph,
    beside: &Neighbours,
    set: &mut BitRow,
) -> Result<(), NoMemory>
    requires graph { IsGraph graph.now }
    requires beside { AreNeighbours graph.now beside.now }
    requires count { set.old.len ≡ length graph.now.functions }
    ensures length { set.new.len ≡ set.old.len }
    ensures holds { OnOk result ((f : ℕ) → Holds set.new f ↔ (Holds set.old f ⊎ IsBetween graph.now set.old f)) }
{
    let down = reached(alloc, beside.callees, set)?;
    let up = reached(alloc, &beside.callers, set)?;
    add_common(set, &down, &up);
    Ok(())
}

/// The region of a global: its users, what stands between two of the region, and the callers of what has a
/// caller in it.
pub(crate) fn region(
    alloc: Global,
    graph: &CallGraph,
    beside: &Neighbours,
    sets: &RefSets,
    global: usize,
) -> Result<BitRow, NoMemory>
    requires graph { IsGraph graph.now }
    requires beside { AreNeighbours graph.now beside.now }
    requires sets { AreRefSets graph.now sets.now }
    ensures length { IfOk result (λ row. row.len ≡ length graph.now.functions) }
    ensures holds { IfOk result (λ row. (f : ℕ) → Holds row f ↔ Region graph.now global f) }
{
    let mut set = users(alloc, graph, sets, global)?;
    loop {
        let more = outside(alloc, &beside.callers, &set)?;
        if !set.union_with(&more) {
            return Ok(set);
        }
        add_between(alloc, graph, beside, &mut set)?;
    }
}
