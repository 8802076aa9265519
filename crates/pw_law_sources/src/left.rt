//! Laws of what a build leaves of a store with C sources. A function here does nothing: its clauses are facts about all values.

ghost use Rattle.std.specs.Prelude.{Ok};
ghost use Rattle.pw_io.specs.Files.{Files, Told};
ghost use Rattle.pw_store_texts.specs.Seen.{IsSeen};
ghost use Rattle.pw_top_answer.specs.Effects.{after_puts};
ghost use Rattle.pw_build_files.specs.Building.{Outcome};
ghost use Rattle.pw_build_files.specs.Genuine.{KeepsGenuine};
ghost use Rattle.pw_build_files.specs.Seen.{SeenOutcome};
ghost use Rattle.pw_build_opts.specs.declared.opts.Opts.{Opts};
ghost use Rattle.pw_law_build.specs.Kept.{FitObjects, KeepsFlows, unchanged};
ghost use Rattle.pw_law_sources.specs.Left.{HoldsSeenBuild, HoldsSeenFullBuild, KeepsPhases, KeepsSeenObjects};

use crate::seen::what_builds_put_is_seen;
use pw_build_files::genuine_objects_are_seen;
use pw_law_build::{
    a_build_again_makes_nothing, a_build_keeps_its_objects, a_build_leaves_its_program,
    a_build_leaves_the_whole_program, an_edit_that_keeps_flows_makes_nothing,
};
use pw_store_texts::{built_files_are_seen, files_are_seen_in_one_way};

/// A build leaves the database and the image of the program to which the modules, as it sees them, and what was kept of them come, whatever
/// was kept.
pub fn a_seen_build_leaves_its_program()
    ensures { (told : Told) (opts : Opts) (outcome : Outcome) → SeenOutcome told.files opts (Ok outcome) → HoldsSeenBuild told.files opts (after_puts told outcome.puts).files }
{
    a_build_leaves_its_program();
    what_builds_put_is_seen();
    built_files_are_seen();
}

/// Where the kept objects are genuine, a build leaves the database and the image of the full build of the modules' texts as it sees them, in
/// which nothing is kept.
pub fn a_seen_build_leaves_the_whole_program()
    ensures { (told : Told) (opts : Opts) (outcome : Outcome) → KeepsGenuine told.files → SeenOutcome told.files opts (Ok outcome) → HoldsSeenFullBuild told.files opts (after_puts told outcome.puts).files }
{
    a_build_leaves_the_whole_program();
    genuine_objects_are_seen();
    what_builds_put_is_seen();
    built_files_are_seen();
}

/// The modules that the next build sees are those that a build saw, and the objects of its program are kept under the modules' names, where
/// kept files can hold them.
pub fn a_seen_build_keeps_its_objects()
    ensures { (told : Told) (opts : Opts) (outcome : Outcome) → SeenOutcome told.files opts (Ok outcome) → KeepsSeenObjects told.files opts (after_puts told outcome.puts).files }
{
    a_build_keeps_its_objects();
    what_builds_put_is_seen();
}

/// A build makes nothing anew and puts nothing over files that differ from what a build left in texts, C sources or headers alone, where the
/// flow graphs of the modules that it sees are as they were and kept files can hold the objects.
pub fn an_edit_that_keeps_seen_flows_makes_nothing()
    ensures { (told : Told) (opts : Opts) (outcome : Outcome) (files left edited : Files) → SeenOutcome told.files opts (Ok outcome) → FitObjects outcome.linked_objects →
        IsSeen (after_puts told outcome.puts).files left → IsSeen files edited → KeepsFlows left edited → SeenOutcome files opts (Ok (unchanged outcome)) }
{
    an_edit_that_keeps_flows_makes_nothing();
    what_builds_put_is_seen();
    files_are_seen_in_one_way();
}

/// An edit of texts, C sources or headers keeps the flow graphs, and so rebuilds nothing, where the modules that a build sees have the names
/// that they had, the first phase makes of each what it made, and they pass no other limit than before. So it is with one more comment.
pub fn an_edit_that_keeps_phases_keeps_flows()
    ensures { (old new shown edited : Files) → IsSeen old shown → IsSeen new edited → KeepsPhases old new shown edited → KeepsFlows shown edited }
{
    built_files_are_seen();
}

/// A build over what a build left makes nothing anew and puts nothing, where kept files can hold the objects.
pub fn a_seen_build_again_makes_nothing()
    ensures { (told : Told) (opts : Opts) (outcome : Outcome) → SeenOutcome told.files opts (Ok outcome) → FitObjects outcome.linked_objects → SeenOutcome (after_puts told outcome.puts).files opts (Ok (unchanged outcome)) }
{
    a_build_again_makes_nothing();
    what_builds_put_is_seen();
}
