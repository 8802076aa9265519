//! Who stands beside a function in a call graph.

ghost use Rattle.std.specs.Prelude.{◌≡◌, ℕ, ◌<◌, ◌≤◌, ◌^◌, ◌++◌, ◌⊎◌, ◌↔◌, All, Contains, List, [], length, IfOk, OnOk};
ghost use Rattle.pw_graph.specs.CallGraph.{IsGraph};
ghost use Rattle.pw_webs.specs.Walking.{AreSteps, Leads, AreNeighbours};

use pw_graph::CallGraph;
use pw_items::Items;
use std::alloc::{AllocError as NoMemory, Global};

/// The callees of each function, its callers, and both.
#[derive(Drop)]
pub(crate) struct Neighbours<'a> {
    pub callees: &'a [Items<u32>],
    pub callers: Vec<Items<u32>>,
    pub both: Vec<Items<u32>>,
}

/// So many empty rows.
fn empty_rows(alloc: Global, count: usize) -> Result<Vec<Items<u32>>, NoMemory>
    ensures count { IfOk result (λ v. length v.items ≡ count) }
    ensures empty { IfOk result (λ v. All (λ row. row ≡ []) v.items) }
{
    let mut rows = Vec::with_capacity(alloc, count)?;
    for _ in 0..count {
        rows.push(Items::new(alloc))?;
    }
    Ok(rows)
}

/// Adds a function to the row of each of its callees.
fn add_caller(rows: &mut [Items<u32>], caller: u32, callees: &[u32]) -> Result<(), NoMemory>
    requires { All (λ b. b < length rows.old) callees.now }
    ensures { OnOk result ((a b : ℕ) → Leads rows.new a b ↔ (Leads rows.old a b ⊎ (Contains callees.now a × (b ≡ caller)))) }
{
    for callee in callees {
        let row = &mut rows[*callee as usize];
        row.push(caller)?;
    }
    Ok(())
}

/// The callers of each function.
pub fn callers_of(alloc: Global, calls: &[Items<u32>]) -> Result<Vec<Items<u32>>, NoMemory>
    requires steps { AreSteps calls.now }
    requires count { length calls.now ≤ 2 ^ 32 }
    ensures count { IfOk result (λ v. length v.items ≡ length calls.now) }
    ensures callers { IfOk result (λ v. (a b : ℕ) → Leads v.items a b ↔ Leads calls.now b a) }
{
    let mut rows = empty_rows(alloc, calls.len())?;
    for caller in 0..calls.len() {
        add_caller(&mut rows, caller as u32, calls[caller].as_slice())?;
    }
    Ok(rows)
}

/// Two rows as one.
fn joined(alloc: Global, one: &[u32], other: &[u32]) -> Result<Items<u32>, NoMemory>
    ensures { IfOk result (λ v. v ≡ one.now ++ other.now) }
{
    let mut row = Vec::with_capacity(alloc, one.len())?;
    row.extend_from_slice(one)?;
    row.extend_from_slice(other)?;
    Ok(Items::from_vec(row))
}

/// Two tables as one, row by row.
fn joined_rows(
    alloc: Global,
    ones: &[Items<u32>],
    others: &[Items<u32>],
) -> Result<Vec<Items<u32>>, NoMemory>
    requires { length ones.now ≡ length others.now }
    ensures count { IfOk result (λ v. length v.items ≡ length ones.now) }
    ensures either { IfOk result (λ v. (a b : ℕ) → Leads v.items a b ↔ (Leads ones.now a b ⊎ Leads others.now a b)) }
{
    let mut rows = Vec::with_capacity(alloc, ones.len())?;
    for i in 0..ones.len() {
        rows.push(joined(alloc, ones[i].as_slice(), others[i].as_slice())?)?;
    }
    Ok(rows)
}

/// The neighbours of each function of a graph.
pub(crate) fn neighbours_of<'a>(
    alloc: Global,
    graph: &'a CallGraph,
) -> Result<Neighbours<'a>, NoMemory>
    requires { IsGraph graph.now }
    ensures { IfOk result (AreNeighbours graph.now) }
{
    let callees = graph.calls.as_slice();
    let callers = callers_of(alloc, callees)?;
    let both = joined_rows(alloc, callees, &callers)?;
    Ok(Neighbours {
        callees,
        callers,
        both,
    })
}
