//! The database of a program.

ghost use Rattle.std.specs.Prelude.{◌≡◌, ◌≤◌, ◌⊎◌, ◌↔◌, ℕ, List, All, IfOk, IfErr, OnOk};
ghost use Rattle.pw_db.specs.declared.database.Directives.{Directives};
ghost use Rattle.pw_summary.specs.declared.summary.Summary.{Summary as Whole};
ghost use Rattle.pw_summary.specs.Summary.{IsSummary};
ghost use Rattle.pw_graph.specs.CallGraph.{IsGraph};
ghost use Rattle.pw_graph.specs.Program.{AreLinked, AreRefused, IsGraphOf};
ghost use Rattle.pw_clusters.specs.Clusters.{AreRoots};
ghost use Rattle.pw_colour.specs.Colours.{IsDatabaseOf};
ghost use Rattle.pw_colour.specs.Giving.{AreClusters};
ghost use Rattle.pw_db.specs.Database.{database_version};
ghost use Rattle.pw_db.specs.Limits.{colour_limit};

use crate::colouring::registers;
use crate::directing::{Clusters, database, numbered};
use crate::laws::databases_are_one;
use crate::ranking::ranked;
use pw_cluster_roots::{find_roots, greatest_needs};
use pw_clusters::laws::{few_registers_are_saved, roots_are_one};
use pw_db::Database;
use pw_graph::{CallGraph, build_graph};
use pw_graph_refs::ref_sets;
use pw_summary::Summary;
use pw_value::LinkFault;
use pw_webs::webs;
use std::alloc::{AllocError, Global};

/// The database of a call graph, of which these are the clusters.
fn database_with(
    alloc: Global,
    graph: &CallGraph,
    clusters: Clusters,
    colours: u8,
) -> Result<Database, AllocError>
    requires graph { IsGraph graph.now }
    requires clusters { AreClusters graph.now clusters.roots.now clusters.needs.now }
    requires few { colours ≤ colour_limit }
    ensures functions { IfOk result (λ db. (ss : List Whole) → IsGraphOf ss graph.now → AreRoots ss graph.now clusters.entry.roots.now → IsDatabaseOf ss colours db.functions) }
    ensures version { IfOk result (λ db. db.version ≡ database_version) }
{
    let sets = ref_sets(alloc, graph)?;
    let all = ranked(webs(alloc, graph, &sets)?)?;
    let given = registers(alloc, graph.functions.len(), colours, &all)?;
    let coloured = numbered(alloc, &all, &given)?;
    database(alloc, graph, &coloured, clusters)
}

/// The database of a program, which has this call graph.
fn database_of(
    alloc: Global,
    summaries: &[Summary],
    graph: &CallGraph,
    colours: u8,
) -> Result<Database, AllocError>
    requires of { IsGraphOf summaries.now graph.now }
    requires graph { IsGraph graph.now }
    requires few { colours ≤ colour_limit }
    ensures functions { IfOk result (λ db. IsDatabaseOf summaries.now colours db.functions) }
    ensures version { IfOk result (λ db. db.version ≡ database_version) }
{
    roots_are_one();
    few_registers_are_saved();
    let roots = find_roots(alloc, summaries, graph)?;
    let needs = greatest_needs(alloc, &roots, graph.needs.as_slice())?;
    let clusters = Clusters {
        roots: &roots,
        needs: &needs,
    };
    database_with(alloc, graph, clusters, colours)
}

/// The database of a program for so many registers, made of the summaries of its modules; or which rule of
/// linking they break. It is a database of the newest version.
pub fn analyse(alloc: Global, summaries: &[Summary], colours: u8) -> Result<Database, LinkFault>
    requires lawful { All IsSummary summaries.now }
    requires few { colours ≤ colour_limit }
    ensures exact { IfOk result (λ db. (d : List (List ℕ × Directives)) → IsDatabaseOf summaries.now colours d ↔ (d ≡ db.functions)) }
    ensures version { IfOk result (λ db. db.version ≡ database_version) }
    ensures linked { OnOk result (AreLinked summaries.now) }
    ensures refused { IfErr result (λ fault. (fault ≡ LinkFault.NoMemory) ⊎ AreRefused summaries.now fault) }
{
    databases_are_one();
    let graph = build_graph(alloc, summaries)?;
    Ok(database_of(alloc, summaries, &graph, colours)?)
}
