//! Laws of what builds are refused for. A function here does nothing: its clauses are facts about all values.

ghost use Rattle.std.specs.Prelude.{◌≡◌, ◌⊎◌, ◌↔◌, ◌≤◌, ℕ, List, Option, Result, Ok, Err, IfErr, IsOk};
ghost use Rattle.std.specs.List.{AllByRecursion};
ghost use Rattle.pw_io.specs.Faults.{Rose};
ghost use Rattle.pw_io.specs.Files.{Files, Told};
ghost use Rattle.pw_flow.specs.declared.flow.FlowModule.{FlowModule};
ghost use Rattle.pw_db.specs.Limits.{colour_limit};
ghost use Rattle.pw_object.specs.declared.object.Object.{Object};
ghost use Rattle.pw_store_modules.specs.Modules.{Source, modules_of};
ghost use Rattle.pw_build_objects.specs.Kept.{IsGenuineIfKept};
ghost use Rattle.pw_build_objects.specs.Programs.{Parts};
ghost use Rattle.pw_build_files.specs.FromBuild.BuildFault.{BuildFault};
ghost use Rattle.pw_build_files.specs.FromBuild.BuildFault.TheVariants as build;
ghost use Rattle.pw_build_files.specs.FromBuild.Unbuilt.{Unbuilt};
ghost use Rattle.pw_build_files.specs.FromBuild.Builds.{Builds, first_phases};
ghost use Rattle.pw_top_answer.specs.declared.answer.Answer.{Answer};
ghost use Rattle.pw_top_answer.specs.declared.answer.Answer.TheVariants as answer;
ghost use Rattle.pw_top_answer.specs.Outcomes.{InputCount, OutputCount, StoreCount};
ghost use Rattle.pw_build_files.specs.Building.{BuildOutcome, Outcome};
ghost use Rattle.pw_build_files.specs.Genuine.{KeepsGenuine};
ghost use Rattle.pw_build_files.specs.Outcomes.{FaultCount, ObeysBuild};
ghost use Rattle.pw_build_files.specs.Seen.{SeenOutcome};
ghost use Rattle.pw_build_opts.specs.declared.opts.Opts.{Opts};
ghost use Rattle.pw_build_files.specs.declared.report.Report.{Report};
ghost use Rattle.pw_commands.specs.Outcome.{IsFound};
ghost use Rattle.pw_build_files.specs.Driving.{BuildEffect};
ghost use Rattle.pw_law_shown.specs.Alike.{DeclaresMain};
ghost use Rattle.pw_law_build.specs.Complete.{CanBeBuilt, StoreCanBeBuilt};

use pw_build_files::{
    flow_graphs_declare_main, genuine_objects_are_seen, genuine_objects_give_the_full_image,
};
use pw_build_objects::laws::{
    flow_graphs_have_one_answer, genuine_objects_change_nothing, objects_are_refused_for_room_alone,
};
use pw_law_shown::flow_graphs_and_summaries_are_refused_alike;
use pw_link_rules::laws::modules_have_one_answer;

/// The flow graphs of the modules of a build declare each `main` that they define, since a module that checking accepts
/// declares what it defines under an external name.
pub fn first_phases_declare_main()
    ensures { (sources : List Source) (flows : List FlowModule) → first_phases sources ≡ Ok flows → AllByRecursion DeclaresMain flows }
{
    flow_graphs_declare_main();
}

/// Modules that are accepted one by one and together, and for which text and memory are large enough, are refused nothing
/// where what is kept of them is genuine, or nothing is kept.
pub fn accepted_modules_are_built()
    ensures { (sources : List Source) (kept : List (Option Object)) (opts : Opts) (fault : BuildFault) →
        CanBeBuilt sources opts → AllByRecursion IsGenuineIfKept kept → ¬ Builds sources kept opts (Err fault) }
{
    first_phases_declare_main();
    modules_have_one_answer();
    flow_graphs_and_summaries_are_refused_alike();
    objects_are_refused_for_room_alone();
    genuine_objects_change_nothing();
}

/// A build over a store is refused nothing where the store's modules can be built and its kept objects are genuine.
pub fn a_store_that_can_be_built_is_built()
    ensures { (files : Files) (opts : Opts) (fault : BuildFault) →
        CanBeBuilt (modules_of files) opts → KeepsGenuine files → ¬ BuildOutcome files opts (Err fault) }
{
    genuine_objects_give_the_full_image();
    accepted_modules_are_built();
}

/// What is built can be built: a build over genuine objects, or where nothing is kept, is done only where the modules are
/// accepted one by one and together, and have room.
pub fn what_is_built_can_be_built()
    ensures { (sources : List Source) (kept : List (Option Object)) (opts : Opts) (parts : Parts) → opts.colours ≤ colour_limit →
        AllByRecursion IsGenuineIfKept kept → Builds sources kept opts (Ok parts) → CanBeBuilt sources opts }
{
    first_phases_declare_main();
    flow_graphs_and_summaries_are_refused_alike();
    objects_are_refused_for_room_alone();
    flow_graphs_have_one_answer();
    genuine_objects_change_nothing();
}

/// A store whose kept objects are genuine is built exactly where its modules can be built: what a build over its files comes
/// to is a program there, and a refusal where they cannot.
pub fn a_store_is_built_exactly_where_it_can_be()
    ensures { (files : Files) (opts : Opts) (comes : Result Outcome BuildFault) → opts.colours ≤ colour_limit →
        KeepsGenuine files → BuildOutcome files opts comes → IsOk comes ↔ CanBeBuilt (modules_of files) opts }
{
    a_store_that_can_be_built_is_built();
    what_is_built_can_be_built();
    genuine_objects_give_the_full_image();
}

/// A build over a store, as it sees the store's files, is refused nothing where the modules that it sees can be built and the
/// kept objects are genuine.
pub fn a_seen_store_that_can_be_built_is_built()
    ensures { (files : Files) (opts : Opts) (fault : BuildFault) →
        StoreCanBeBuilt files opts → KeepsGenuine files → ¬ SeenOutcome files opts (Err fault) }
{
    a_store_that_can_be_built_is_built();
    genuine_objects_are_seen();
}

/// Where a store's modules, as a build sees them, can be built, its kept objects are genuine and its count of faults did not
/// rise, a build answers its report; or memory ran out.
pub fn builds_are_complete()
    ensures { (opts : Opts) (result : Result Report Unbuilt) (told : Told) (new : Option Told) (before now : ℕ) →
        StoreCanBeBuilt told.files opts → KeepsGenuine told.files →
        ObeysBuild opts result told new → FaultCount before now result → ¬ Rose before now →
        IfErr result (λ unbuilt. unbuilt.fault ≡ build.NoMemory) }
{
    a_seen_store_that_can_be_built_is_built();
}

/// Where a store's modules, as a build sees them, can be built, its kept objects are genuine and no count of faults
/// rose, the command `build` answers that it is done, or that memory ran out.
pub fn the_command_is_complete()
    ensures { (files : Files) (opts : Opts) (input : List ℕ) (reply : Answer) (store store' read read' written written' : ℕ) →
        StoreCanBeBuilt files opts → KeepsGenuine files → IsFound (BuildEffect files opts input) reply →
        StoreCount store store' reply → InputCount read read' reply → OutputCount written written' reply →
        ¬ Rose store store' → ¬ Rose read read' → ¬ Rose written written' →
        (reply ≡ answer.Done) ⊎ (reply ≡ answer.NoMemory) }
{
    a_seen_store_that_can_be_built_is_built();
}
