//! Laws of answers, without code: what the definitions of the analyser and of the second phase ask for, there is.
#![tactic(auto)]

ghost use Rattle.std.specs.Prelude.{◌≤◌, ◌⊎◌, ℕ, List};
ghost use Rattle.std.specs.List.{AllByRecursion};
ghost use Rattle.pw_value.specs.declared.fault.LinkFault.{LinkFault};
ghost use Rattle.pw_flow.specs.declared.flow.FlowModule.{FlowModule};
ghost use Rattle.pw_flow.specs.ValidFlow.{IsValid};
ghost use Rattle.pw_summary.specs.Summary.{IsSummary};
ghost use Rattle.pw_summary.specs.declared.summary.Summary.{Summary};
ghost use Rattle.pw_summarise.specs.Summarises.{Summarises};
ghost use Rattle.pw_link_rules.specs.Linking.{Links, Refusal};
ghost use Rattle.pw_link_rules.specs.declared.interface.Interface.{Interface};
ghost use Rattle.pw_graph.specs.declared.graph.CallGraph.{CallGraph};
ghost use Rattle.pw_graph.specs.CallGraph.{IsGraph};
ghost use Rattle.pw_graph.specs.Program.{AreLinked};
ghost use Rattle.pw_webs.specs.declared.web.RawWeb.{RawWeb};
ghost use Rattle.pw_webs.specs.Webs.{AreWebs};
ghost use Rattle.pw_db.specs.Limits.{colour_limit};
ghost use Rattle.pw_db.specs.declared.database.Directives.{Directives};
ghost use Rattle.pw_colour.specs.Colours.{IsDatabaseOf};
ghost use Rattle.pw_object.specs.declared.object.Object.{Object};
ghost use Rattle.pw_phase_two.specs.Phases.{AreDirectivesIn, IsObjectOf};
ghost use Rattle.pw_law_answers.specs.Held.{HasFile, HasNames};

use pw_clusters::laws::roots_are_there;
use pw_colour::laws::{databases_are_lawful, databases_are_one};

/// Each lawful flow graph has a summary, which keeps the rules of summaries; where a file can hold the flow graph, the summary's names
/// are as long as names may be.
pub fn modules_have_summaries()
    ensures one { (m : FlowModule) → IsValid m → (s : Summary) × Summarises m s × IsSummary s }
    ensures names { (m : FlowModule) (s : Summary) → HasFile m → Summarises m s → HasNames s }
{}

/// Modules make a program, or a rule of linking refuses them: which is true can be told of any.
pub fn modules_link_or_are_refused()
    ensures { (modules : List Interface) → Links modules ⊎ ((fault : LinkFault) × Refusal modules fault) }
{}

/// Each call graph has webs: there is a list of them that the definition of webs takes.
pub fn graphs_have_webs()
    ensures { (g : CallGraph) → IsGraph g → (ws : List RawWeb) × AreWebs g ws }
{}

/// Summaries that make a program, and whose names are as long as names may be, have a database, for however many registers.
pub fn programs_have_databases()
    ensures { (ss : List Summary) (colours : ℕ) → AllByRecursion IsSummary ss → AllByRecursion HasNames ss → AreLinked ss →
        (db : List (List ℕ × Directives)) × IsDatabaseOf ss colours db }
{
    roots_are_there();
}

/// Under the database of such a program each lawful flow graph that a file can hold has an object, with its directives.
pub fn programs_have_objects()
    ensures { (ss : List Summary) (colours : ℕ) (db : List (List ℕ × Directives)) → colours ≤ colour_limit → AllByRecursion IsSummary ss → AllByRecursion HasNames ss → AreLinked ss → IsDatabaseOf ss colours db →
        (flow : FlowModule) → IsValid flow → HasFile flow → (ds : List (List ℕ × Directives)) × (o : Object) × AreDirectivesIn db flow ds × IsObjectOf flow ds o }
{
    databases_are_lawful();
    databases_are_one();
    roots_are_there();
}
