//! The functions that come to call themselves.

ghost use Rattle.std.specs.Prelude.{◌≡◌, ◌<◌, ◌⊎◌, ◌↔◌, ℕ, length, vec_len, IfOk};
ghost use Rattle.pw_fix.specs.Row.{Holds};
ghost use Rattle.pw_fix.specs.Table.{HoldsAt};
ghost use Rattle.pw_graph.specs.CallGraph.{IsGraph, Path};

use crate::flows::{calls_of, flown};
use pw_fix::{BitRow, BitRows};
use pw_graph::CallGraph;
use std::alloc::{AllocError as NoMemory, Global};

/// Of each place itself.
fn own_places(alloc: Global, count: usize) -> Result<BitRows, NoMemory>
    ensures count { IfOk result (λ table. vec_len table.rows ≡ count) }
    ensures length { IfOk result (λ table. table.len ≡ count) }
    ensures holds { IfOk result (λ table. (n v : ℕ) → HoldsAt table n v ↔ ((n < count) × (v ≡ n))) }
{
    let mut table = BitRows::new(alloc, count, count)?;
    for place in 0..count {
        table.insert(place, place);
    }
    Ok(table)
}

/// Adds a place that stands in its own row.
fn add_own(row: &mut BitRow, table: &BitRows, place: usize)
    requires place { place < row.old.len }
    requires rows { place < vec_len table.now.rows }
    ensures length { row.new.len ≡ row.old.len }
    ensures holds { (f : ℕ) → Holds row.new f ↔ (Holds row.old f ⊎ ((f ≡ place) × HoldsAt table.now place place)) }
{
    if !table.contains(place, place) {
        return;
    }
    row.insert(place);
}

/// The places that stand in their own rows.
fn diagonal(alloc: Global, table: &BitRows) -> Result<BitRow, NoMemory>
    requires { vec_len table.now.rows ≡ table.now.len }
    ensures length { IfOk result (λ row. row.len ≡ table.now.len) }
    ensures holds { IfOk result (λ row. (f : ℕ) → Holds row f ↔ ((f < table.now.len) × HoldsAt table.now f f)) }
{
    let mut row = BitRow::new(alloc, table.len)?;
    for place in 0..table.len {
        add_own(&mut row, table, place);
    }
    Ok(row)
}

/// The functions from which calls lead to themselves.
pub fn in_cycles(alloc: Global, graph: &CallGraph) -> Result<BitRow, NoMemory>
    requires { IsGraph graph.now }
    ensures length { IfOk result (λ row. row.len ≡ length graph.now.functions) }
    ensures holds { IfOk result (λ row. (f : ℕ) → Holds row f ↔ Path graph.now f f) }
{
    let own = own_places(alloc, graph.functions.len())?;
    let calls = calls_of(alloc, graph)?;
    let reached = flown(alloc, &own, calls)?;
    diagonal(alloc, &reached)
}
