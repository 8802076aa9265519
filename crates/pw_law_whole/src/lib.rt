//! Laws of full builds, without code: what a build makes of texts is what the layers between C and words speak of.
#![tactic(auto)]

ghost use Rattle.std.specs.Prelude.{◌≡◌, Ok};
ghost use Rattle.pw_build_opts.specs.Options.{AreOpts};
ghost use Rattle.pw_io.specs.Files.{Files};
ghost use Rattle.pw_store_modules.specs.Modules.{Texts, module_map};
ghost use Rattle.pw_build_opts.specs.declared.opts.Opts.{Opts};
ghost use Rattle.pw_build_objects.specs.Programs.{Parts};
ghost use Rattle.pw_build.specs.Builds.{FullBuild};
ghost use Rattle.pw_cmean.specs.Worlds.{Program};
ghost use Rattle.pw_law_layers.specs.Whole.{FramesFit, image_of};
ghost use Rattle.pw_law_whole.specs.Programs.{HavePlainNames, HoldsWith, IsProgramOf, IsWholeWith};

use pw_build::{flow_graphs_declare_main, phase_one_is_exact};
use pw_build_objects::laws::forms_keep_what_modules_have;
use pw_check_rules::checks_is_exact;
use pw_colour::laws::databases_are_lawful;
use pw_db::laws::directives_are_one;
use pw_front_end::front_is_exact;
use pw_law_analysis::{accepted_programs_have_shapes, layers_give_all, summaries_say_the_same};
use pw_law_layers::{frames_are_within_rooms, lowered_have_rooms, lowering_implements};
use pw_law_lowering::{checked_is_accepted, lowering_keeps_runs};
use pw_law_opt::laws::{
    optimisation_keeps_programs, optimisation_keeps_rooms, optimisation_keeps_runs,
    optimisation_shows_no_more,
};
use pw_law_opt_links::laws::modules_that_show_less_stay_linked;
use pw_law_selection::selection_keeps_runs;
use pw_law_shown::flow_graphs_and_summaries_are_refused_alike;
use pw_law_temps::laws::temporaries_serve_programs;
use pw_store_modules::modules_are_exact;

/// The texts of a full build that gives parts have a program, and texts have at most one.
pub fn full_builds_have_a_program()
    ensures program { (texts : Texts) (opts : Opts) (parts : Parts) → FullBuild texts opts (Ok parts) → (p : Program) × IsProgramOf texts p }
    ensures one { (texts : Texts) (p q : Program) → IsProgramOf texts p → IsProgramOf texts q → p ≡ q }
{
    phase_one_is_exact();
    front_is_exact();
    checks_is_exact();
}

/// The modules of a store's files have no colon in their names.
pub fn modules_of_files_have_plain_names()
    ensures { (files : Files) → HavePlainNames (module_map files) }
{
    modules_are_exact();
}

/// The parts of a full build are those of its texts' program, which is accepted in the words of C's meaning. By the laws of lowering
/// and of optimisation the flow graphs of which they are made, optimised or not, do what it means; the database is the one that the analyser makes of their summaries; the places that allocation
/// gives serve their functions; and the objects are made of these, and fit into the memory.
pub fn full_builds_are_whole()
    ensures { (texts : Texts) (opts : Opts) (parts : Parts) (p : Program) → FullBuild texts opts (Ok parts) → IsProgramOf texts p →
        HavePlainNames texts → AreOpts opts → IsWholeWith p parts opts }
{
    phase_one_is_exact();
    flow_graphs_declare_main();
    databases_are_lawful();
    directives_are_one();
    temporaries_serve_programs();
    lowered_have_rooms();
    lowering_implements();
    accepted_programs_have_shapes();
    summaries_say_the_same();
    checked_is_accepted();
    flow_graphs_and_summaries_are_refused_alike();
    modules_that_show_less_stay_linked();
    forms_keep_what_modules_have();
    optimisation_keeps_runs();
    optimisation_keeps_rooms();
    optimisation_keeps_programs();
    optimisation_shows_no_more();
}

/// Each frame of the map of a full build's image is at most the room of its function.
pub fn frames_of_full_builds_fit()
    ensures { (texts : Texts) (opts : Opts) (parts : Parts) (p : Program) → FullBuild texts opts (Ok parts) → IsProgramOf texts p →
        HavePlainNames texts → AreOpts opts → FramesFit p (image_of parts.objects opts.stack) }
{
    full_builds_are_whole();
    frames_are_within_rooms();
}

/// Of each full build that gives parts, and on every input: the program of
/// its texts agrees with the machine that runs its image; each global has its value in its place at each call and return; and where
/// the program is defined, each call keeps the registers, and the law of traffic holds; all by the database that the analyser makes
/// of the summaries of its flow graphs.
pub fn full_builds_hold()
    ensures { (texts : Texts) (opts : Opts) (parts : Parts) (p : Program) → FullBuild texts opts (Ok parts) → IsProgramOf texts p →
        HavePlainNames texts → AreOpts opts → HoldsWith p parts opts }
{
    full_builds_are_whole();
    lowering_keeps_runs();
    selection_keeps_runs();
    layers_give_all();
}
