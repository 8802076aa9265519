//! The roots of the functions of a program.

ghost use Rattle.std.specs.Prelude.{IfOk};
ghost use Rattle.pw_graph.specs.CallGraph.{IsGraph};
ghost use Rattle.pw_graph.specs.Program.{IsGraphOf};
ghost use Rattle.pw_clusters.specs.Clusters.{AreRoots};

use crate::inner::inner_of;
use crate::rounds::roots_among;
use pw_graph::CallGraph;
use pw_graph_refs::in_cycles;
use pw_summary::Summary;
use pw_webs::callers_of;
use std::alloc::{AllocError as NoMemory, Global};

/// The root of each function of a program, by its place.
pub fn find_roots(
    alloc: Global,
    summaries: &[Summary],
    graph: &CallGraph,
) -> Result<Vec<u32>, NoMemory>
    requires graph { IsGraph graph.now }
    requires of { IsGraphOf summaries.now graph.now }
    ensures { IfOk result (λ v. AreRoots summaries.now graph.now v.items) }
{
    let callers = callers_of(alloc, graph.calls.as_slice())?;
    let cycles = in_cycles(alloc, graph)?;
    let inner = inner_of(alloc, summaries, graph, &callers, &cycles)?;
    roots_among(alloc, graph, &callers, &inner)
}
