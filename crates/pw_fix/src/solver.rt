//! The solver: a list of the nodes whose inflow has risen since their step was taken.

ghost use Rattle.std.specs.Prelude.{◌≡◌, ℕ, ◌+◌, ◌<◌, ◌≤◌, length, IfOk, OnOk, All, Contains, Some, slice_get, vec_len};
ghost use Rattle.pw_fix.specs.Order.{IsLeast};
ghost use Rattle.pw_fix.specs.Solution.{AreDerived, IsLeastSolution};
ghost use Rattle.pw_fix.specs.Spread.{IsSpread, room};
ghost use Rattle.pw_fix.specs.Waiting.{IsWaiting, node_count, waiting_count};

use crate::graph::Graph;
use crate::lattice::Lattice;
use crate::problem::Problem;
use crate::worklist::Worklist;
use std::alloc::{AllocError as NoMemory, Global};

/// The least element, `count` times.
fn bottoms<L: Lattice>(alloc: Global, lattice: &L, count: usize) -> Result<Vec<L::Elem>, NoMemory>
    ensures each { IfOk result (λ all. vec_len all ≡ count) }
    ensures least { IfOk result (λ all. All (IsLeast (L.is_own lattice.now) (L.is_below lattice.now)) all.items) }
{
    let mut all = Vec::with_capacity(alloc, count)?;
    for _ in 0..count {
        all.push(lattice.bottom(alloc)?)?;
    }
    Ok(all)
}

/// What is known of the nodes while the solver runs: of each one the value so far and what flows into it, what the last
/// step made, and the nodes that wait.
#[derive(Drop)]
struct Flows<E> {
    values: Vec<E>,
    inflows: Vec<E>,
    outflow: E,
    waiting: Worklist,
}

/// Before the first step everything is the least element, and all nodes wait.
fn start<L: Lattice>(alloc: Global, lattice: &L, nodes: usize) -> Result<Flows<L::Elem>, NoMemory>
    ensures each_value { IfOk result (λ flows. vec_len flows.values ≡ nodes) }
    ensures values { IfOk result (λ flows. All (IsLeast (L.is_own lattice.now) (L.is_below lattice.now)) flows.values.items) }
    ensures each_inflow { IfOk result (λ flows. vec_len flows.inflows ≡ nodes) }
    ensures inflows { IfOk result (λ flows. All (IsLeast (L.is_own lattice.now) (L.is_below lattice.now)) flows.inflows.items) }
    ensures outflow { IfOk result (λ flows. IsLeast (L.is_own lattice.now) (L.is_below lattice.now) flows.outflow) }
    ensures nodes { IfOk result (λ flows. node_count flows.waiting ≡ nodes) }
    ensures waiting { IfOk result (λ flows. (n : ℕ) → n < nodes → IsWaiting flows.waiting n) }
{
    let values = bottoms(alloc, lattice, nodes)?;
    let inflows = bottoms(alloc, lattice, nodes)?;
    let outflow = lattice.bottom(alloc)?;
    let waiting = Worklist::full(alloc, nodes)?;
    Ok(Flows {
        values,
        inflows,
        outflow,
        waiting,
    })
}

/// Joins a value into the inflow of each successor. Those whose inflow rises wait from now on.
fn spread<L: Lattice>(
    lattice: &L,
    value: &L::Elem,
    successors: &[usize],
    inflows: &mut [L::Elem],
    waiting: &mut Worklist,
) -> Result<(), NoMemory>
    requires value { L.is_own lattice.now value.now }
    requires successors { All (λ s. s < length inflows.old) successors.now }
    requires inflows { All (L.is_own lattice.now) inflows.old }
    requires waiting { node_count waiting.old ≡ length inflows.old }
    ensures nodes { node_count waiting.new ≡ node_count waiting.old }
    ensures kept { (n : ℕ) → IsWaiting waiting.old n → IsWaiting waiting.new n }
    ensures flows { OnOk result ((s : ℕ) (y z : L.Elem) → slice_get inflows.old s ≡ Some y → slice_get inflows.new s ≡ Some z
        → IsSpread (L.is_own lattice.now) (L.is_below lattice.now) (Contains successors.now s) value.now y z (IsWaiting waiting.new s)) }
    ensures room { (height : ℕ) → ((x : L.Elem) → L.is_own lattice.now x → L.rank lattice.now x ≤ height)
        → waiting_count waiting.new + room (L.rank lattice.now) height inflows.new
        ≤ waiting_count waiting.old + room (L.rank lattice.now) height inflows.old }
{
    for &node in successors {
        if lattice.join(&mut inflows[node], value) {
            waiting.push(node)?;
        }
    }
    Ok(())
}

/// The least solution of a problem over a graph: of each node the value, in the order of the
/// nodes. Each value is at least what the node's step makes of the join of its predecessors'
/// values, and no assignment of which that holds has a lower value at any node.
///
/// A node's step is taken at most once more often than the height, and an edge is followed at most
/// as often as the height (the proof says that the solver ends, and not this count).
pub fn solve<P: Problem>(
    alloc: Global,
    graph: &Graph,
    problem: &P,
) -> Result<Vec<<P::L as Lattice>::Elem>, NoMemory>
    requires { P.node_count problem.now ≡ graph.now.nodes }
    ensures least { let lattice = P.lattice_of problem.now in
        IfOk result (λ values. IsLeastSolution (P.L.is_own lattice) (P.L.is_below lattice)
        (P.gives problem.now) graph.now.nodes graph.now.edges.items values.items) }
    // Nothing is in a value but what finitely many steps put there.
    ensures derived { let lattice = P.lattice_of problem.now in
        IfOk result (λ values. AreDerived (P.L.is_own lattice) (P.L.is_below lattice)
        (P.gives problem.now) graph.now.edges.items values.items) }
{
    let lattice = problem.lattice();
    let successors = graph.successors(alloc)?;
    let Flows {
        mut values,
        mut inflows,
        mut outflow,
        mut waiting,
    } = start(alloc, lattice, graph.nodes)?;
    while let Some(node) = waiting.pop() {
        problem.step(node, &inflows[node], &mut outflow);
        if lattice.join(&mut values[node], &outflow) {
            spread(
                lattice,
                &values[node],
                successors[node].as_slice(),
                &mut inflows,
                &mut waiting,
            )?;
        }
    }
    Ok(values)
}
