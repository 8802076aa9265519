//! Laws of builds over the files of a store. A function here does nothing: its clauses are facts about all values.

ghost use Rattle.std.specs.Prelude.{◌≡◌, ◌≤◌, ℕ, List, [], Ok, IfSome, Option, Result};
ghost use Rattle.std.specs.List.{AllByRecursion};
ghost use Rattle.pw_io.specs.Files.{Files, Told};
ghost use Rattle.pw_store_modules.specs.Modules.{Texts, module_map, modules_of};
ghost use Rattle.pw_top_answer.specs.Effects.{NamedFile, PutPart, after_puts};
ghost use Rattle.pw_build_objects.specs.Programs.{Parts};
ghost use Rattle.pw_build_files.specs.FromBuild.BuildFault.{BuildFault};
ghost use Rattle.pw_build_files.specs.FromBuild.Builds.{Builds};
ghost use Rattle.pw_build_files.specs.FromBuild.Full.{built_anew};
ghost use Rattle.pw_build_files.specs.Building.{BuildOutcome, Outcome, kept_object, kept_objects};
ghost use Rattle.pw_build_files.specs.Seen.{SeenOutcome};
ghost use Rattle.pw_store_texts.specs.Seen.{IsSeen};
ghost use Rattle.pw_build_files.specs.Full.{BuildsImage, image_of};
ghost use Rattle.pw_build_files.specs.Genuine.{IsGenuineFile, KeepsGenuine};
ghost use Rattle.pw_db.specs.Limits.{colour_limit};
ghost use Rattle.pw_build_opts.specs.declared.opts.Opts.{Opts};

use pw_build::laws as build_laws;
use pw_build::laws::modules_have_one_build;
use pw_db_file::laws::databases_and_files_are_one_to_one;
use pw_image::laws::images_and_files_are_one_to_one;
use pw_io::laws::{names, other_files};
use pw_object::laws::objects_and_files_are_one_to_one;
use pw_store_modules::modules_are_exact;
use pw_store_texts::{built_files_are_seen, files_are_seen_in_one_way};

/// The files of a store come to one build.
pub fn a_store_has_one_build()
    ensures { (files : Files) (opts : Opts) (a b : Result Outcome BuildFault) → opts.colours ≤ colour_limit → BuildOutcome files opts a → BuildOutcome files opts b → a ≡ b }
{
    modules_have_one_build();
    databases_and_files_are_one_to_one();
    images_and_files_are_one_to_one();
    objects_and_files_are_one_to_one();
}

/// The files of a store, as a build sees them, come to one build.
pub fn a_store_is_built_in_one_way()
    ensures { (files : Files) (opts : Opts) (a b : Result Outcome BuildFault) → opts.colours ≤ colour_limit → SeenOutcome files opts a → SeenOutcome files opts b → a ≡ b }
{
    a_store_has_one_build();
    files_are_seen_in_one_way();
}

/// Where the kept objects are genuine, a build over a store's files is the full build, but for which objects are made anew.
pub fn genuine_objects_give_the_full_build()
    ensures { (files : Files) (opts : Opts) (a : Result Parts BuildFault) → KeepsGenuine files → Builds (modules_of files) (kept_objects files) opts a → Builds (modules_of files) [] opts (built_anew a) }
{
    names();
    modules_are_exact();
    build_laws::genuine_objects_give_the_full_build();
}

/// What is kept of a module stands so among the files as a build sees them.
pub fn kept_objects_are_seen()
    ensures { (files shown : Files) (name : List ℕ) → IsSeen files shown → kept_object files name ≡ kept_object shown name }
{
    built_files_are_seen();
}

/// Where the kept objects are genuine, so they are among the files as a build sees them.
pub fn genuine_objects_are_seen()
    ensures { (files shown : Files) → IsSeen files shown → KeepsGenuine files → KeepsGenuine shown }
{
    built_files_are_seen();
}

/// The full build of texts comes to the bytes of one image, or to one fault.
pub fn texts_have_one_image()
    ensures { (texts : Texts) (opts : Opts) (a b : Result (List ℕ) BuildFault) → opts.colours ≤ colour_limit → BuildsImage texts opts a → BuildsImage texts opts b → a ≡ b }
{
    modules_have_one_build();
    images_and_files_are_one_to_one();
}

/// Where the kept objects are genuine, a build over a store's files comes to the image of the full build of their texts,
/// byte for byte, or to its fault.
pub fn genuine_objects_give_the_full_image()
    ensures { (files : Files) (opts : Opts) (comes : Result Outcome BuildFault) → KeepsGenuine files → BuildOutcome files opts comes → BuildsImage (module_map files) opts (image_of comes) }
{
    genuine_objects_give_the_full_build();
}

/// A build over a store whose kept objects are genuine leaves it so.
pub fn builds_leave_genuine_objects()
    ensures { (told : Told) (opts : Opts) (outcome : Outcome) → KeepsGenuine told.files → BuildOutcome told.files opts (Ok outcome) → KeepsGenuine (after_puts told outcome.puts).files }
{
    other_files();
}

/// Kept objects that are genuine stay so where files are put, the last of them perhaps in part, if each that has the name of an
/// object's file is that of a genuine object.
pub fn genuine_files_keep_genuine()
    ensures { (told : Told) (files : List NamedFile) (new : Option Told) → KeepsGenuine told.files → AllByRecursion IsGenuineFile files → PutPart told files new → IfSome new (λ now. KeepsGenuine now.files) }
{
    other_files();
}
