//! Roots in rounds.

ghost use Rattle.std.specs.Prelude.{◌≡◌, ◌<◌, ◌↔◌, ◌⊎◌, ◌^◌, ℕ, All, Contains, length, slice_index, slice_set, IfOk};
ghost use Rattle.std.specs.Bool.{OnTrue, OnFalse, MatchBool};
ghost use Rattle.std.specs.List.{range_with_len};
ghost use Rattle.pw_fix.specs.Row.{Holds};
ghost use Rattle.pw_graph.specs.CallGraph.{IsGraph, Calls};
ghost use Rattle.pw_webs.specs.Walking.{Leads};
ghost use Rattle.pw_cluster_roots.specs.Rounds.{HaveAll, IsRootBy, AreRootsAmong, MayBeInner, AreSettled, NoneReady};

use pw_clusters::laws::what_callers_hand_on_holds;
use pw_fix::BitRow;
use pw_graph::CallGraph;
use pw_items::Items;
use std::alloc::{AllocError as NoMemory, Global};

/// Whether all of these functions have the root.
fn have_root(roots: &[u32], root: u32, places: &[u32]) -> bool
    requires { All (λ c. c < length roots.now) places.now }
    ensures { MatchBool result (HaveAll roots.now places.now root) ((c : ℕ) × Contains places.now c × ¬ (slice_index roots.now c ≡ root)) }
{
    for place in places {
        if roots[*place as usize] != root {
            return false;
        }
    }
    true
}

/// The one root of those that call a function, or else the function itself.
fn root_of(roots: &[u32], place: usize, callers: &[u32]) -> u32
    requires within { All (λ c. c < length roots.now) callers.now }
    requires place { place < 2 ^ 32 }
    ensures { IsRootBy roots.now callers.now place result }
{
    match callers.first() {
        Some(first) => {
            let root = roots[*first as usize];
            if have_root(roots, root, callers) {
                root
            } else {
                place as u32
            }
        }
        None => place as u32,
    }
}

/// Whether all of these functions are settled.
fn are_settled(settled: &BitRow, places: &[u32]) -> bool
    ensures { MatchBool result ((c : ℕ) → Contains places.now c → Holds settled.now c) ((c : ℕ) × Contains places.now c × ¬ Holds settled.now c) }
{
    for place in places {
        if !settled.contains(*place as usize) {
            return false;
        }
    }
    true
}

/// Settles a function, where it is not settled yet and all that call it are; whether it was so.
fn settle(roots: &mut [u32], settled: &mut BitRow, callers: &[u32], place: usize) -> bool
    requires place { place < length roots.old }
    requires few { length roots.old < 2 ^ 32 }
    requires width { settled.old.len ≡ length roots.old }
    requires within { All (λ c. c < length roots.old) callers.now }
    ensures count { length roots.new ≡ length roots.old }
    ensures width { settled.new.len ≡ settled.old.len }
    ensures settled { OnTrue result ((¬ Holds settled.old place) × ((c : ℕ) → Contains callers.now c → Holds settled.old c) × ((k : ℕ) → Holds settled.new k ↔ ((k ≡ place) ⊎ Holds settled.old k)) × ((root : ℕ) × IsRootBy roots.old callers.now place root × (roots.new ≡ slice_set roots.old place root))) }
    ensures not { OnFalse result ((settled.new ≡ settled.old) × (roots.new ≡ roots.old) × (((c : ℕ) → Contains callers.now c → Holds settled.old c) → Holds settled.old place)) }
{
    if settled.contains(place) {
        return false;
    }
    if !are_settled(settled, callers) {
        return false;
    }
    roots[place] = root_of(roots, place, callers);
    settled.insert(place);
    true
}

/// Settles what is ready, in the order of places; whether something was.
fn round(
    graph: &CallGraph,
    callers: &[Items<u32>],
    inner: &BitRow,
    roots: &mut [u32],
    settled: &mut BitRow,
) -> bool
    requires graph { IsGraph graph.now }
    requires count { length callers.now ≡ length graph.now.functions }
    requires callers { (a b : ℕ) → Leads callers.now a b ↔ Calls graph.now b a }
    requires called { (f : ℕ) → Holds inner.now f → (c : ℕ) × Calls graph.now c f }
    requires settled { AreSettled graph.now inner.now settled.old roots.old }
    ensures settled { AreSettled graph.now inner.now settled.new roots.new }
    ensures more { (f : ℕ) → Holds settled.old f → Holds settled.new f }
    ensures added { OnTrue result ((f : ℕ) × Holds settled.new f × ¬ Holds settled.old f) }
    ensures none { OnFalse result (NoneReady graph.now settled.new) }
{
    let mut added = false;
    for place in 0..callers.len() {
        if settle(roots, settled, callers[place].as_slice(), place) {
            added = true;
        }
    }
    added
}

/// Each place as its own root.
fn own_roots(alloc: Global, count: usize) -> Result<Vec<u32>, NoMemory>
    requires { count < 2 ^ 32 }
    ensures { IfOk result (λ v. v.items ≡ range_with_len 0 count) }
{
    let mut roots = Vec::with_capacity(alloc, count)?;
    for place in 0..count {
        roots.push(place as u32)?;
    }
    Ok(roots)
}

/// All functions but these.
fn others(alloc: Global, inner: &BitRow) -> Result<BitRow, NoMemory>
    ensures width { IfOk result (λ row. row.len ≡ inner.now.len) }
    ensures holds { IfOk result (λ row. (f : ℕ) → Holds row f ↔ ((f < inner.now.len) × ¬ Holds inner.now f)) }
{
    let mut row = BitRow::full(alloc, inner.len)?;
    row.subtract(inner);
    Ok(row)
}

/// The roots of functions, of which these may work for others alone. Each round settles one at least, since of those that are
/// not settled one has settled callers alone: else each had a caller that is not settled, and one came to call itself.
pub(crate) fn roots_among(
    alloc: Global,
    graph: &CallGraph,
    callers: &[Items<u32>],
    inner: &BitRow,
) -> Result<Vec<u32>, NoMemory>
    requires graph { IsGraph graph.now }
    requires count { length callers.now ≡ length graph.now.functions }
    requires callers { (a b : ℕ) → Leads callers.now a b ↔ Calls graph.now b a }
    requires inner { MayBeInner graph.now inner.now }
    ensures { IfOk result (λ v. AreRootsAmong graph.now inner.now v.items) }
{
    what_callers_hand_on_holds();
    let mut roots = own_roots(alloc, graph.functions.len())?;
    let mut settled = others(alloc, inner)?;
    loop {
        if !round(graph, callers, inner, &mut roots, &mut settled) {
            return Ok(roots);
        }
    }
}
