//! Laws of completeness, without code: each build has an answer, and modules that can be built have a program.
#![tactic(auto)]

ghost use Rattle.std.specs.Prelude.{◌≡◌, ◌≤◌, ℕ, List, [], map, Option, Result, Ok};
ghost use Rattle.std.specs.List.{AllByRecursion};
ghost use Rattle.pw_flow.specs.ValidFlow.{IsValid};
ghost use Rattle.pw_flow.specs.declared.flow.FlowModule.{FlowModule};
ghost use Rattle.pw_summary.specs.Summary.{IsSummary};
ghost use Rattle.pw_summary.specs.declared.summary.Summary.{Summary};
ghost use Rattle.pw_graph.specs.Program.{AreLinked};
ghost use Rattle.pw_link_rules.specs.Linking.{Links};
ghost use Rattle.pw_object.specs.declared.object.Object.{Object};
ghost use Rattle.pw_db.specs.Limits.{colour_limit};
ghost use Rattle.pw_store_modules.specs.Modules.{Source};
ghost use Rattle.pw_build_objects.specs.Programs.{AreParts, AreSummariesOf, Parts};
ghost use Rattle.pw_build_files.specs.FromBuild.BuildFault.{BuildFault};
ghost use Rattle.pw_build_files.specs.FromBuild.Builds.{Builds, first_phases};
ghost use Rattle.pw_build_opts.specs.declared.opts.Opts.{Opts};
ghost use Rattle.pw_law_complete.specs.Forms.{HaveFiles};
ghost use Rattle.pw_law_build.specs.Complete.{CanBeBuilt};
ghost use Rattle.pw_law_shown.specs.Alike.{shown};

use pw_build_files::build_laws::modules_have_one_build;
use pw_build_objects::laws::{forms_keep_what_modules_have, objects_are_refused_for_room_alone};
use pw_db_file::laws::one_list_is_stored;
use pw_flowfile::laws::flow_graphs_and_files_are_one_to_one;
use pw_law_answers::{
    modules_have_summaries, modules_link_or_are_refused, programs_have_databases,
    programs_have_objects,
};
use pw_law_build::first_phases_declare_main;
use pw_law_opt_answers::laws::modules_have_optimised_forms;
use pw_law_shown::flow_graphs_and_summaries_are_refused_alike;
use pw_phase_one::laws::flow_graphs_are_lawful;

/// The flow graphs of the modules of a build are lawful, since each is that of an accepted text.
pub fn first_phases_are_lawful()
    ensures { (sources : List Source) (flows : List FlowModule) → first_phases sources ≡ Ok flows → AllByRecursion IsValid flows }
{
    flow_graphs_are_lawful();
}

/// Lawful flow graphs that make a program, and whose forms files can hold, have parts, whatever is kept of them: a database, and an object of
/// each, which is the kept one where that stays, or is made anew.
pub fn programs_have_parts()
    ensures { (flows : List FlowModule) (ss : List Summary) (kept : List (Option Object)) (opts : Opts) → opts.colours ≤ colour_limit → AllByRecursion IsValid flows → HaveFiles flows opts →
        AreSummariesOf flows ss → AllByRecursion IsSummary ss → AreLinked ss → (parts : Parts) × AreParts flows kept opts parts }
{
    flow_graphs_and_files_are_one_to_one();
    forms_keep_what_modules_have();
    modules_have_optimised_forms();
    modules_have_summaries();
    one_list_is_stored();
    programs_have_databases();
    programs_have_objects();
}

/// What a build comes to where the modules can be built and nothing is kept: their parts, wherever there are some.
pub fn parts_of_accepted_modules_are_their_build()
    ensures { (sources : List Source) (opts : Opts) (parts : Parts) → (can : CanBeBuilt sources opts) →
        AreParts can.accepted.flows [] opts parts → Builds sources [] opts (Ok parts) }
{
    first_phases_declare_main();
    objects_are_refused_for_room_alone();
}

/// The full build of modules has exactly one answer, whatever they are: the program's parts, or why there are none. Where they keep the
/// rules of linking, files have to hold their flow graphs, or the optimised ones.
pub fn builds_have_an_answer()
    ensures { (sources : List Source) (opts : Opts) → opts.colours ≤ colour_limit →
        ((flows : List FlowModule) → first_phases sources ≡ Ok flows → Links (map shown flows) → HaveFiles flows opts) →
        (answer : Result Parts BuildFault) × Builds sources [] opts answer × ((other : Result Parts BuildFault) → Builds sources [] opts other → other ≡ answer) }
{
    first_phases_are_lawful();
    first_phases_declare_main();
    flow_graphs_and_summaries_are_refused_alike();
    modules_have_one_build();
    modules_have_summaries();
    modules_link_or_are_refused();
    objects_are_refused_for_room_alone();
    programs_have_parts();
}

/// Modules that can be built, and whose flow graphs files can hold, have a build where nothing is kept. So the full build of modules
/// that are accepted one by one and together has an answer, with no premise but room.
pub fn accepted_modules_have_a_build()
    ensures { (sources : List Source) (opts : Opts) → opts.colours ≤ colour_limit → (can : CanBeBuilt sources opts) →
        HaveFiles can.accepted.flows opts → (parts : Parts) × Builds sources [] opts (Ok parts) }
{
    first_phases_are_lawful();
    flow_graphs_and_summaries_are_refused_alike();
    modules_have_summaries();
    programs_have_parts();
    parts_of_accepted_modules_are_their_build();
}
