//! Cases of pw_fix: problems over hand-made graphs, with solutions by hand.

ghost use Rattle.std.specs.Prelude.{◌≡◌, ℕ, ◌<◌, ◌≤◌, ◌⊎◌, ◌↔◌, All, IsTrue, vec_len, nat_lt, ◌+◌, if◌then◌else◌};
ghost use Rattle.std.proofs.Common.{inl, inr};
ghost use Rattle.pw_tests_base.specs.Flat.{IsFlatBelow, flat_order, flat_rank, flat_rank_fits, choice_monotone};
ghost use Rattle.pw_fix.specs.Row.{Holds};
ghost use Rattle.pw_fix.specs.RowLaws.{insert_monotone, members_fit};
ghost use Rattle.pw_fix.specs.Table.{HoldsAt};
ghost use Rattle.pw_fix.specs.Walks.{Reaches};

use crate::cases::Case;
use pw_fix::{BitRow, BitRows, Graph, Lattice, NoMemory, Problem, Rows, solve};
use pw_rows::Text;
use std::alloc::Global;
use std::process::Abort;

/// What is asked of the solver and of sets of numbers.
pub(crate) enum SolverCase {
    /// For each of so many nodes, those from which it is reached over these edges: solved, and by the definition.
    Solved(usize, &'static [(usize, usize)]),
    /// For each of so many nodes, those from which it is reached over these edges, by the definition.
    Walked(usize, &'static [(usize, usize)]),
    /// The variables that are live as each node of `READS`, `WRITES` and `BACKWARD` begins.
    Live,
    /// The numbers of nodes where two give their own.
    Numbers,
    /// Which of 1, 64, 69 and 64 is new as it is put into a set of numbers below 70; and the set.
    Some,
    /// How many numbers the set of all 70 has; and against the set of `Some`: whether that is a subset of it, and it of
    /// that; without the other's, the next number from 64 and from 69, and whether they meet; whether it rises as it
    /// takes the other in, and again.
    All,
}

/// Cases and their answers. The graphs: no nodes; no edges; a cycle of 0, 1 and 2, which leads to 5, a node with an
/// edge to itself, and one that nothing reaches.
pub(crate) static CASES: [(SolverCase, &str); 10] = [
    (SolverCase::Solved(0, &[]), ""),
    (SolverCase::Walked(0, &[]), ""),
    (SolverCase::Solved(3, &[]), "[0] [1] [2] "),
    (SolverCase::Walked(3, &[]), "[0] [1] [2] "),
    (
        SolverCase::Solved(6, &[(0, 1), (1, 2), (2, 0), (3, 3), (2, 5), (2, 5)]),
        "[0, 1, 2] [0, 1, 2] [0, 1, 2] [3] [4] [0, 1, 2, 5] ",
    ),
    (
        SolverCase::Walked(6, &[(0, 1), (1, 2), (2, 0), (3, 3), (2, 5), (2, 5)]),
        "[0, 1, 2] [0, 1, 2] [0, 1, 2] [3] [4] [0, 1, 2, 5] ",
    ),
    (SolverCase::Live, "[2] [0, 2] [1, 2] [1, 2] [0, 2] [2] "),
    (SolverCase::Numbers, "[1, 2, 1, 2, 4294967295, 0]"),
    (SolverCase::Some, "[true, true, true, false] [1, 64, 69] "),
    (
        SolverCase::All,
        "70 [true, false] (Some(65), None, false) [true, false]",
    ),
];

impl Case for SolverCase {
    fn answer<R: Abort>(&self, rt: &R, text: &mut Text) {
        let alloc = text.alloc();
        match self {
            SolverCase::Solved(nodes, edges) => {
                push_rows(rt, text, reached_rows(rt, alloc, *nodes, *edges))
            }
            SolverCase::Walked(nodes, edges) => push_walks(rt, text, *nodes, *edges),
            SolverCase::Live => push_rows(rt, text, live_rows(rt, alloc)),
            SolverCase::Numbers => push_numbers(rt, text),
            SolverCase::Some => push_some(rt, text),
            SolverCase::All => push_all(rt, text),
        }
    }
}

/// The nodes from which each node is reached.
#[derive(Drop)]
struct Reached {
    rows: Rows,
}

impl Problem for Reached {
    type L = Rows;

    ghost node_count = { λ p. p.rows.len };

    ghost lattice_of = { λ p. p.rows };

    ghost height_of = { λ p. p.rows.len };

    ghost gives = { λ _ n x y. (k : ℕ) → Holds y k ↔ ((k ≡ n) ⊎ Holds x k) };

    fn lattice(&self) -> &Rows {
        &self.rows
    }

    fn step(&self, node: usize, inflow: &BitRow, out: &mut BitRow) {
        out.copy_from(inflow);
        out.insert(node);
    }

    fn height(&self) -> u64 {
        self.rows.len as u64
    }

    ghost monotone = { λ _ n x y a b _ _ _ _ _. insert_monotone n x y a b };

    ghost bounded = { λ p x. members_fit p.rows.len x };
}

/// A graph of these nodes and edges.
fn graph_of(rt: &impl Abort, alloc: Global, nodes: usize, ends: &[(usize, usize)]) -> Graph
    ensures { result.nodes ≡ nodes }
{
    let mut edges = Vec::new(alloc);
    for &(from, to) in ends {
        if from < nodes && to < nodes {
            edges.push((from, to)).expect(rt, "memory for an edge");
        }
    }
    Graph { nodes, edges }
}

/// Adds the numbers of a set.
fn push_row(rt: &impl Abort, text: &mut Text, row: &BitRow) {
    let held: Vec<usize> = row
        .iter()
        .collect(text.alloc())
        .expect(rt, "memory for numbers");
    text.debug(&held);
    text.push(b" ");
}

/// Adds the numbers of sets.
fn push_rows(rt: &impl Abort, text: &mut Text, rows: Vec<BitRow>) {
    for row in rows.iter() {
        push_row(rt, text, row);
    }
}

/// The nodes from which each node of a graph is reached.
fn reached_rows(
    rt: &impl Abort,
    alloc: Global,
    nodes: usize,
    edges: &[(usize, usize)],
) -> Vec<BitRow> {
    let graph = graph_of(rt, alloc, nodes, edges);
    let problem = Reached {
        rows: Rows { len: nodes },
    };
    solve(alloc, &graph, &problem).expect(rt, "a solution")
}

/// Adds the nodes from which a node is reached, by the definition.
fn push_walks_to(
    rt: &impl Abort,
    text: &mut Text,
    nodes: usize,
    edges: &[(usize, usize)],
    to: usize,
) {
    let mut held = Vec::new(text.alloc());
    for from in 0..nodes {
        if reaches_within(edges, nodes, from, to) {
            held.push(from).expect(rt, "memory for a number");
        }
    }
    text.debug(&held);
    text.push(b" ");
}

/// Adds the nodes from which each node is reached, by the definition.
fn push_walks(rt: &impl Abort, text: &mut Text, nodes: usize, edges: &[(usize, usize)]) {
    for to in 0..nodes {
        push_walks_to(rt, text, nodes, edges, to);
    }
}

/// Whether a walk of at most so many edges leads from the one node to the other, by the definition.
fn reaches_within(edges: &[(usize, usize)], steps: usize, from: usize, to: usize) -> bool
    ensures { IsTrue result ↔ Reaches edges.now steps from to }
{
    if from == to {
        return true;
    }
    if steps == 0 {
        return false;
    }
    for &(before, at) in edges {
        if at == to && reaches_within(edges, steps - 1, from, before) {
            return true;
        }
    }
    false
}

/// The variables that are live as each node begins: those that it reads, and those that are live
/// after it and not written there.
#[derive(Drop)]
struct Live {
    reads: BitRows,
    writes: BitRows,
    ghost one_length: { writes.len ≡ reads.len },
    ghost one_count: { vec_len writes.rows ≡ vec_len reads.rows },
    rows: Rows,
    ghost rows_length: { rows.len ≡ reads.len },
}

impl Problem for Live {
    type L = Rows;

    ghost node_count = { λ p. vec_len p.reads.rows };

    ghost lattice_of = { λ p. p.rows };

    ghost height_of = { λ p. p.rows.len };

    ghost gives = { λ p n x y. (k : ℕ) → Holds y k ↔ ((Holds x k × ¬ (HoldsAt p.writes n k)) ⊎ HoldsAt p.reads n k) };

    fn lattice(&self) -> &Rows {
        &self.rows
    }

    fn step(&self, node: usize, inflow: &BitRow, out: &mut BitRow) {
        out.copy_from(inflow);
        out.subtract(self.writes.row(node));
        out.union_with(self.reads.row(node));
    }

    fn height(&self) -> u64 {
        self.rows.len as u64
    }

    ghost monotone = { λ p n x y a b _ _ _ _ _ sub ha hb i h. (hb i).1 (elim ((ha i).0 h) [ inl w ↦ inl (sub i w.0, w.1) | inr w ↦ inr w ]) };

    ghost bounded = { λ p x. members_fit p.rows.len x };
}

/// The flat lattice: 0 where nothing is known, a number, or `u32::MAX` where there are several.
#[derive(Clone, Copy)]
struct FlatNumbers;

impl Lattice for FlatNumbers {
    type Elem = u32;

    ghost is_own = { λ _ _. Unit {0} };

    ghost is_below = { λ _ a b. IsFlatBelow a b };

    ghost rank = { λ _ a. flat_rank a };

    fn bottom(&self, alloc: Global) -> Result<u32, NoMemory> {
        let _ = alloc;
        Ok(0)
    }

    fn join(&self, into: &mut u32, from: &u32) -> bool {
        let old = *into;
        let from = *from;
        if from == 0 || from == old || old == u32::MAX {
            return false;
        }
        *into = if old == 0 { from } else { u32::MAX };
        true
    }

    fn le(&self, a: &u32, b: &u32) -> bool {
        *a == *b || *a == 0 || *b == u32::MAX
    }

    ghost order = { λ _. flat_order };
}

/// Nodes of which the first two give a number of their own and the others what flows into them.
#[derive(Drop)]
struct Constants {
    nodes: usize,
    numbers: FlatNumbers,
}

impl Problem for Constants {
    type L = FlatNumbers;

    ghost node_count = { λ p. p.nodes };

    ghost lattice_of = { λ p. p.numbers };

    ghost height_of = { λ _. 2 };

    ghost gives = { λ _ n x y. y ≡ (if (nat_lt n 2) then (n + 1) else x) };

    fn lattice(&self) -> &FlatNumbers {
        &self.numbers
    }

    fn step(&self, node: usize, inflow: &u32, out: &mut u32) {
        *out = if node < 2 { node as u32 + 1 } else { *inflow };
    }

    fn height(&self) -> u64 {
        2
    }

    ghost monotone = { λ _ n x y a b _ _ _ _ _. choice_monotone n x y a b };

    ghost bounded = { λ _ x _. flat_rank_fits x };
}

/// `count` sets of numbers below `len`, with these marks.
fn table_of(
    rt: &impl Abort,
    alloc: Global,
    count: usize,
    len: usize,
    marks: &[(usize, usize)],
) -> BitRows
    ensures count { vec_len result.rows ≡ count }
    ensures length { result.len ≡ len }
{
    let mut table = BitRows::new(alloc, count, len).expect(rt, "memory for sets");
    for &(n, i) in marks {
        if n < count && i < len {
            table.insert(n, i);
        }
    }
    table
}

/// The variables that each node reads and writes, and the edges backward: of
/// a := 0; do { b := a + 1; c := c + b; a := b * 2 } while (a < 9); return c
static READS: [(usize, usize); 6] = [(1, 0), (2, 1), (2, 2), (3, 1), (4, 0), (5, 2)];

static WRITES: [(usize, usize); 4] = [(0, 0), (1, 1), (2, 2), (3, 0)];

static BACKWARD: [(usize, usize); 6] = [(1, 0), (2, 1), (3, 2), (4, 3), (1, 4), (5, 4)];

/// The variables that are live as each node begins.
fn live_rows(rt: &impl Abort, alloc: Global) -> Vec<BitRow> {
    let reads = table_of(rt, alloc, 6, 3, &READS);
    let writes = table_of(rt, alloc, 6, 3, &WRITES);
    let problem = Live {
        reads,
        writes,
        rows: Rows { len: 3 },
    };
    let graph = graph_of(rt, alloc, 6, &BACKWARD);
    solve(alloc, &graph, &problem).expect(rt, "a solution")
}

/// Adds the numbers of nodes where two give their own.
fn push_numbers(rt: &impl Abort, text: &mut Text) {
    let graph = graph_of(
        rt,
        text.alloc(),
        6,
        &[(0, 2), (1, 3), (0, 4), (1, 4), (4, 4)],
    );
    let problem = Constants {
        nodes: 6,
        numbers: FlatNumbers,
    };
    let numbers = solve(text.alloc(), &graph, &problem).expect(rt, "a solution");
    text.debug(&numbers);
}

/// Adds which numbers are new as they are put into a set, and the set.
fn push_some(rt: &impl Abort, text: &mut Text) {
    let mut some = BitRow::new(text.alloc(), 70).expect(rt, "memory for a set");
    text.debug(&[
        some.insert(1),
        some.insert(64),
        some.insert(69),
        some.insert(64),
    ]);
    text.push(b" ");
    push_row(rt, text, &some);
}

/// Adds what the set of all numbers is against one of three.
fn push_all(rt: &impl Abort, text: &mut Text) {
    let mut some = BitRow::new(text.alloc(), 70).expect(rt, "memory for a set");
    some.insert(1);
    some.insert(64);
    some.insert(69);
    let mut all = BitRow::full(text.alloc(), 70).expect(rt, "memory for a set");
    let held: Vec<usize> = all
        .iter()
        .collect(text.alloc())
        .expect(rt, "memory for numbers");
    text.display(&held.len());
    text.push(b" ");
    text.debug(&[some.is_subset(&all), all.is_subset(&some)]);
    all.subtract(&some);
    text.push(b" ");
    text.debug(&(all.next_from(64), all.next_from(69), all.intersects(&some)));
    text.push(b" ");
    text.debug(&[all.union_with(&some), all.union_with(&some)]);
}
