//! Laws of what a build leaves. A function here does nothing: its clauses are facts about all values.

ghost use Rattle.std.specs.Prelude.{◌≡◌, ℕ, List, Ok, Some};
ghost use Rattle.std.specs.FinMap as finite;
ghost use Rattle.pw_io.specs.Files.{Files, Told, prefix_of};
ghost use Rattle.pw_store_modules.specs.FileNames.{text_name};
ghost use Rattle.pw_store_modules.specs.Modules.{HoldsModule, module_map, modules_of, text_read};
ghost use Rattle.pw_top_answer.specs.Effects.{after_puts};
ghost use Rattle.pw_build_objects.specs.Programs.{Parts};
ghost use Rattle.pw_build_files.specs.FromBuild.Builds.{Builds, limit_passed};
ghost use Rattle.pw_build_files.specs.FromBuild.FirstPhase.{compiled};
ghost use Rattle.pw_build_files.specs.Building.{BuildOutcome, IsOutcome, Outcome, kept_objects};
ghost use Rattle.pw_build_files.specs.Genuine.{KeepsGenuine};
ghost use Rattle.pw_law_build.specs.Kept.{FitObjects, KeepsFlows, KeepsObjects, unchanged};
ghost use Rattle.pw_law_build.specs.Whole.{HoldsBuild, HoldsFullBuild};
ghost use Rattle.pw_build_opts.specs.declared.opts.Opts.{Opts};

use pw_build_files::genuine_objects_give_the_full_build;
use pw_build_objects::laws::forms_keep_what_modules_have;
use pw_io::laws::{front, other_files};
use pw_store_modules::modules_are_exact;

/// A build leaves the database and the image of the program to which the modules and what was kept of them come, whatever
/// was kept.
pub fn a_build_leaves_its_program()
    ensures { (told : Told) (opts : Opts) (outcome : Outcome) → BuildOutcome told.files opts (Ok outcome) → HoldsBuild told.files opts (after_puts told outcome.puts).files }
{
    other_files();
}

/// Where the kept objects are genuine, a build leaves the database and the image of the full build of the modules' texts, in
/// which nothing is kept.
pub fn a_build_leaves_the_whole_program()
    ensures { (told : Told) (opts : Opts) (outcome : Outcome) → KeepsGenuine told.files → BuildOutcome told.files opts (Ok outcome) → HoldsFullBuild (module_map told.files) opts (after_puts told outcome.puts).files }
{
    genuine_objects_give_the_full_build();
    other_files();
}

/// A build leaves the modules as they were, and the objects of its program kept under the modules' names, where kept files can
/// hold them.
pub fn a_build_keeps_its_objects()
    ensures { (told : Told) (opts : Opts) (parts : Parts) (outcome : Outcome) → Builds (modules_of told.files) (kept_objects told.files) opts (Ok parts) → IsOutcome told.files opts.stack parts outcome → KeepsObjects told.files (after_puts told outcome.puts).files parts }
{
    forms_keep_what_modules_have();
    front();
    modules_are_exact();
    other_files();
}

/// A build makes nothing anew and puts nothing over files that differ from what a build left in texts whose flow graphs are as
/// they were, where kept files can hold the objects. So an edit that changes a text but no flow graph, as one more comment,
/// rebuilds nothing.
pub fn an_edit_that_keeps_flows_makes_nothing()
    ensures { (told : Told) (opts : Opts) (parts : Parts) (outcome : Outcome) (files : Files) → Builds (modules_of told.files) (kept_objects told.files) opts (Ok parts) → IsOutcome told.files opts.stack parts outcome → FitObjects parts.objects → KeepsFlows (after_puts told outcome.puts).files files → BuildOutcome files opts (Ok (unchanged outcome)) }
{
    forms_keep_what_modules_have();
    front();
    modules_are_exact();
    other_files();
}

/// A text that is put in place of a module's keeps the flow graphs, and so rebuilds nothing, where the first phase makes of it
/// what it made of the text before, and the texts together pass no other limit than before.
pub fn a_text_with_the_same_flow_keeps_flows()
    ensures { (files : Files) (name old text : List ℕ) → HoldsModule files name old → compiled name (prefix_of text_read text) ≡ compiled name old → limit_passed (modules_of (finite.insert files (text_name name) text)) ≡ limit_passed (modules_of files) → KeepsFlows files (finite.insert files (text_name name) text) }
{
    front();
    modules_are_exact();
    other_files();
}

/// A build over what a build left makes nothing anew and puts nothing, where kept files can hold the objects; and a text that
/// is put where it stands already leaves the files as they are. So an edit that changes nothing rebuilds nothing.
pub fn a_build_again_makes_nothing()
    ensures again { (told : Told) (opts : Opts) (parts : Parts) (outcome : Outcome) → Builds (modules_of told.files) (kept_objects told.files) opts (Ok parts) → IsOutcome told.files opts.stack parts outcome → FitObjects parts.objects → BuildOutcome (after_puts told outcome.puts).files opts (Ok (unchanged outcome)) }
    ensures same_text { (files : Files) (name text : List ℕ) → finite.get files name ≡ Some text → finite.insert files name text ≡ files }
{
    an_edit_that_keeps_flows_makes_nothing();
}
