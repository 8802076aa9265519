//! Laws of programs. A function here does nothing: its clauses are facts about all values.

ghost use Rattle.std.specs.Prelude.{◌≡◌, ◌≤◌, ℕ, Bool, List, [], Option, Result, Some, length, map};
ghost use Rattle.std.specs.List.{AllByRecursion};
ghost use Rattle.pw_value.specs.declared.fault.LinkFault.{LinkFault};
ghost use Rattle.pw_flow.specs.declared.flow.FlowModule.{FlowModule};
ghost use Rattle.pw_flow.specs.ValidFlow.{IsValid};
ghost use Rattle.pw_summary.specs.declared.summary.Summary.{Summary};
ghost use Rattle.pw_graph.specs.Program.{AreLinked};
ghost use Rattle.pw_object.specs.declared.object.Object.{Object};
ghost use Rattle.pw_link.specs.Linking.{IsRefusal, size_fault};
ghost use Rattle.pw_link_interface.specs.Interface.{interface};
ghost use Rattle.pw_link_rules.specs.Linking.{Links};
ghost use Rattle.pw_law_shown.specs.Alike.{DeclaresMain};
ghost use Rattle.pw_build_objects.specs.Programs.{AreForms, AreParts, AreSummariesOf, Completes, KeepRules, Parts};
ghost use Rattle.pw_build_objects.specs.Counting.{MakesAnew};
ghost use Rattle.pw_build_objects.specs.Kept.{IsGenuineIfKept, anew};
ghost use Rattle.pw_db.specs.Limits.{colour_limit};
ghost use Rattle.pw_build_opts.specs.declared.opts.Opts.{Opts};

use pw_colour::laws::{databases_are_lawful, databases_are_one};
use pw_db::laws::directives_are_one;
use pw_db_file::laws::databases_and_payloads_are_one_to_one;
use pw_flowfile::laws::flow_graphs_and_files_are_one_to_one;
use pw_law_link::laws::objects_have_one_answer;
use pw_law_opt::laws::{optimisation_keeps_lawful, optimisation_shows_no_more};
use pw_law_opt_links::laws::optimised_modules_stay_linked;
use pw_law_shown::{
    flow_graphs_and_summaries_are_refused_alike, summaries_and_objects_are_refused_alike,
};
use pw_link_rules::laws::modules_have_one_answer;
use pw_opt::optimised_forms_are_one;
use pw_phase_two::laws::a_module_has_one_object;
use pw_summarise::laws::a_module_has_one_summary;

/// The forms of modules are as many, and have what the modules have: they are lawful, declare the `main` that they define, and
/// keep the rules of linking.
pub fn forms_keep_what_modules_have()
    ensures count { (optimise : Bool) (flows forms : List FlowModule) → AreForms optimise flows forms → length forms ≡ length flows }
    ensures lawful { (optimise : Bool) (flows forms : List FlowModule) → AreForms optimise flows forms → AllByRecursion IsValid flows → AllByRecursion IsValid forms }
    ensures declare { (optimise : Bool) (flows forms : List FlowModule) → AreForms optimise flows forms → AllByRecursion DeclaresMain flows → AllByRecursion DeclaresMain forms }
    ensures rules { (optimise : Bool) (flows forms : List FlowModule) (ss : List Summary) →
        AreForms optimise flows forms → AllByRecursion IsValid flows → KeepRules flows → AreSummariesOf forms ss → AreLinked ss }
{
    optimisation_keeps_lawful();
    optimisation_shows_no_more();
    optimised_modules_stay_linked();
    flow_graphs_and_summaries_are_refused_alike();
}

/// Flow graphs and kept objects come to one answer, and so many objects of theirs are made anew.
pub fn flow_graphs_have_one_answer()
    ensures answer { (flows : List FlowModule) (kept : List (Option Object)) (opts : Opts) (a b : Result Parts LinkFault) → opts.colours ≤ colour_limit → Completes flows kept opts a → Completes flows kept opts b → a ≡ b }
    ensures count { (flows : List FlowModule) (kept : List (Option Object)) (opts : Opts) (made other : ℕ) → opts.colours ≤ colour_limit → MakesAnew flows kept opts made → MakesAnew flows kept opts other → made ≡ other }
{
    databases_are_lawful();
    databases_are_one();
    directives_are_one();
    forms_keep_what_modules_have();
    objects_have_one_answer();
    a_module_has_one_object();
    modules_have_one_answer();
    optimised_forms_are_one();
    a_module_has_one_summary();
}

/// Kept objects that the second phase made change nothing but which objects are made anew.
pub fn genuine_objects_change_nothing()
    ensures { (flows : List FlowModule) (kept : List (Option Object)) (opts : Opts) (a : Result Parts LinkFault) → AllByRecursion IsGenuineIfKept kept → Completes flows kept opts a → Completes flows [] opts (anew a) }
{
    databases_and_payloads_are_one_to_one();
    directives_are_one();
    flow_graphs_and_files_are_one_to_one();
}

/// The objects of a program that the analyser accepted keep the rules of linking where the second phase made all of them, so
/// they are refused for want of room alone: the text or the memory is too small.
pub fn objects_are_refused_for_room_alone()
    ensures links { (flows : List FlowModule) (opts : Opts) (parts : Parts) →
        AllByRecursion DeclaresMain flows → AreParts flows [] opts parts → Links (map interface parts.objects) }
    ensures room { (flows : List FlowModule) (opts : Opts) (parts : Parts) (fault : LinkFault) →
        AllByRecursion DeclaresMain flows → AreParts flows [] opts parts → IsRefusal parts.objects opts.stack fault → size_fault parts.objects opts.stack ≡ Some fault }
{
    forms_keep_what_modules_have();
    modules_have_one_answer();
    summaries_and_objects_are_refused_alike();
}
