//! The globals that flow along calls.

ghost use Rattle.std.specs.Prelude.{◌≡◌, ℕ, ◌<◌, ◌⊎◌, ◌↔◌, ◌++◌, All, length, vec_len, IsTrue, IfOk, OnOk};
ghost use Rattle.pw_fix.specs.Row.{Holds};
ghost use Rattle.pw_fix.specs.RowLaws.{members_fit};
ghost use Rattle.pw_fix.specs.Table.{HoldsAt};
ghost use Rattle.pw_graph.specs.CallGraph.{IsGraph, References, IsTable, AreRefSets};
ghost use Rattle.pw_graph_refs.specs.Flows.{IsHanded, handing_monotone, edges_of, edges_from, turned, AreWithin, IsMarked, IsDelivered, FlowsTo};

use pw_fix::{BitRow, BitRows, Graph, Problem, Rows, solve};
use pw_graph::{CallGraph, RefSets};
use std::alloc::{AllocError as NoMemory, Global};

/// Each function hands on the globals to which it refers, and those that come to it.
#[derive(Drop)]
struct Handing<'a> {
    rows: Rows,
    own: &'a BitRows,
    ghost same: { own.now.len ≡ rows.len },
}

impl<'a> Problem for Handing<'a> {
    type L = Rows;

    ghost node_count = { λ p. vec_len p.own.now.rows };

    ghost lattice_of = { λ p. p.rows };

    ghost height_of = { λ p. p.rows.len };

    ghost gives = { λ p n x y. IsHanded (HoldsAt p.own.now n) x y };

    fn lattice(&self) -> &Rows {
        &self.rows
    }

    fn step(&self, node: usize, inflow: &BitRow, out: &mut BitRow) {
        out.copy_from(inflow);
        out.union_with(self.own.row(node));
    }

    fn height(&self) -> u64 {
        self.rows.len as u64
    }

    ghost monotone = { λ p n x y a b _ _ _ _ _. handing_monotone (HoldsAt p.own.now n) x y a b };

    ghost bounded = { λ p x. members_fit p.rows.len x };
}

/// Whether a reference has a weight.
fn has_weight(reference: &(u32, u64, u64)) -> bool
    ensures { IsTrue result ↔ ((0 < reference.now.1) ⊎ (0 < reference.now.2)) }
{
    reference.1 > 0 || reference.2 > 0
}

/// Puts a global into a function's row, where the reference has a weight.
fn mark_one(table: &mut BitRows, place: usize, reference: &(u32, u64, u64))
    requires row { place < vec_len table.old.rows }
    requires global { reference.now.0 < table.old.len }
    ensures count { vec_len table.new.rows ≡ vec_len table.old.rows }
    ensures length { table.new.len ≡ table.old.len }
    ensures holds { (n v : ℕ) → HoldsAt table.new n v ↔ (HoldsAt table.old n v ⊎ ((n ≡ place) × (v ≡ reference.now.0) × ((0 < reference.now.1) ⊎ (0 < reference.now.2)))) }
{
    if !has_weight(reference) {
        return;
    }
    table.insert(place, reference.0 as usize);
}

/// Puts the globals to which a function refers into its row.
fn mark(table: &mut BitRows, place: usize, refs: &[(u32, u64, u64)])
    requires row { place < vec_len table.old.rows }
    requires globals { All (λ r. r.0 < table.old.len) refs.now }
    ensures count { vec_len table.new.rows ≡ vec_len table.old.rows }
    ensures length { table.new.len ≡ table.old.len }
    ensures holds { (n v : ℕ) → HoldsAt table.new n v ↔ (HoldsAt table.old n v ⊎ ((n ≡ place) × IsMarked refs.now v)) }
{
    for each in refs {
        mark_one(table, place, each);
    }
}

/// The globals to which each function refers itself.
fn own_refs(alloc: Global, graph: &CallGraph) -> Result<BitRows, NoMemory>
    requires { IsGraph graph.now }
    ensures { IfOk result (IsTable graph.now (References graph.now)) }
{
    let refs = graph.refs.as_slice();
    let mut table = BitRows::new(alloc, graph.functions.len(), graph.globals.len())?;
    for place in 0..refs.len() {
        mark(&mut table, place, refs[place].as_slice());
    }
    Ok(table)
}

/// Adds the calls of a function.
fn add_calls(edges: &mut Vec<(usize, usize)>, from: usize, row: &[u32]) -> Result<(), NoMemory>
    ensures { OnOk result (edges.new.items ≡ edges.old.items ++ edges_of from row.now) }
{
    for to in row {
        edges.push((from, *to as usize))?;
    }
    Ok(())
}

/// All calls.
pub(crate) fn calls_of(alloc: Global, graph: &CallGraph) -> Result<Vec<(usize, usize)>, NoMemory>
    ensures { IfOk result (λ v. v.items ≡ edges_from 0 graph.now.calls) }
{
    let rows = graph.calls.as_slice();
    let mut edges = Vec::new(alloc);
    for from in 0..rows.len() {
        add_calls(&mut edges, from, rows[from].as_slice())?;
    }
    Ok(edges)
}

/// The same edges the other way.
fn reversed(alloc: Global, edges: &[(usize, usize)]) -> Result<Vec<(usize, usize)>, NoMemory>
    ensures { IfOk result (λ v. v.items ≡ turned edges.now) }
{
    let mut back = Vec::with_capacity(alloc, edges.len())?;
    for &(from, to) in edges {
        back.push((to, from))?;
    }
    Ok(back)
}

/// Joins a row into one of a table.
pub fn join(table: &mut BitRows, place: usize, row: &BitRow)
    requires place { place < vec_len table.old.rows }
    requires row { row.now.len ≡ table.old.len }
    ensures count { vec_len table.new.rows ≡ vec_len table.old.rows }
    ensures length { table.new.len ≡ table.old.len }
    ensures holds { (n v : ℕ) → HoldsAt table.new n v ↔ (HoldsAt table.old n v ⊎ ((n ≡ place) × Holds row.now v)) }
{
    table.rows[place].union_with(row);
}

/// Puts into each node's row what the nodes hand on from which an edge goes to it.
fn deliver(table: &mut BitRows, edges: &[(usize, usize)], values: &[BitRow])
    requires within { AreWithin (vec_len table.old.rows) edges.now }
    requires count { length values.now ≡ vec_len table.old.rows }
    requires rows { All (λ row. row.len ≡ table.old.len) values.now }
    ensures count { vec_len table.new.rows ≡ vec_len table.old.rows }
    ensures length { table.new.len ≡ table.old.len }
    ensures holds { (n v : ℕ) → HoldsAt table.new n v ↔ (HoldsAt table.old n v ⊎ IsDelivered edges.now values.now n v) }
{
    for &(from, to) in edges {
        join(table, to, &values[from]);
    }
}

/// Of each node the globals of the nodes from which a path leads to it.
pub(crate) fn flown(
    alloc: Global,
    own: &BitRows,
    edges: Vec<(usize, usize)>,
) -> Result<BitRows, NoMemory>
    requires { AreWithin (vec_len own.now.rows) edges.items }
    ensures count { IfOk result (λ table. vec_len table.rows ≡ vec_len own.now.rows) }
    ensures length { IfOk result (λ table. table.len ≡ own.now.len) }
    ensures holds { IfOk result (λ table. (n v : ℕ) → HoldsAt table n v ↔ FlowsTo edges.items own.now n v) }
{
    let nodes = own.rows.len();
    let mut table = BitRows::new(alloc, nodes, own.len)?;
    let graph = Graph { nodes, edges };
    let handing = Handing {
        rows: Rows { len: own.len },
        own,
    };
    let values = solve(alloc, &graph, &handing)?;
    deliver(&mut table, &graph.edges, &values);
    Ok(table)
}

/// The globals that each function refers to itself, through its callers, and through its callees.
pub fn ref_sets(alloc: Global, graph: &CallGraph) -> Result<RefSets, NoMemory>
    requires { IsGraph graph.now }
    ensures { IfOk result (AreRefSets graph.now) }
{
    let own = own_refs(alloc, graph)?;
    let calls = calls_of(alloc, graph)?;
    let back = reversed(alloc, &calls)?;
    let from_callers = flown(alloc, &own, calls)?;
    let from_callees = flown(alloc, &own, back)?;
    Ok(RefSets {
        l_ref: own,
        p_ref: from_callers,
        c_ref: from_callees,
    })
}
