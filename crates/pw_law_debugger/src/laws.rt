//! The laws. A function here does nothing: its clause is a fact about all values.

ghost use Rattle.std.specs.Prelude.{◌≡◌, ℕ, List};
ghost use Rattle.pw_io.specs.Files.{Files};
ghost use Rattle.pw_store_modules.specs.Modules.{module_map};
ghost use Rattle.pw_store_texts.specs.Seen.{IsSeen};
ghost use Rattle.pw_build_opts.specs.declared.opts.RunOpts.{RunOpts};
ghost use Rattle.pw_build_files.specs.Genuine.{KeepsGenuine};
ghost use Rattle.pw_build_files.specs.Outcomes.{AreOpts};
ghost use Rattle.pw_top_answer.specs.declared.answer.Answer.TheVariants.{Done, NoFrames};
ghost use Rattle.pw_top_answer.specs.Effects.{Effect};
ghost use Rattle.pw_commands_where.specs.Showing.{WhereEffect};
ghost use Rattle.pw_cmean.specs.Worlds.{Program};
ghost use Rattle.pw_run_languages.specs.Programs.{AreBytes};
ghost use Rattle.pw_law_whole.specs.Programs.{IsProgramOf};
ghost use Rattle.pw_law_debugger.specs.Debugger.{LosesUndefined, TellsTruth};

use pw_build_files::{
    genuine_objects_are_seen, genuine_objects_give_the_full_build,
    genuine_objects_give_the_full_image,
};
use pw_image::laws::images_and_files_are_one_to_one;
use pw_law_whole::modules_of_files_have_plain_names;
use pw_law_whole_truth::laws::full_builds_tell_the_truth;
use pw_store_texts::files_are_seen_in_one_way;

/// The debugger tells the truth. Where `where K` over a store whose kept objects are genuine is answered with lines, these are
/// true of the C program that the store's modules are, as a build sees them, at its K-th call over the input: if the program is
/// defined on the input, it comes to the call, the first line names the function that is called, and each line of a global that has
/// a value of an integer type then says that value. So it is also of a call for which the stack has no room.
pub fn the_debugger_tells_the_truth()
    ensures { (files shown : Files) (opts : RunOpts) (k : ℕ) (input : List ℕ) (effect : Effect) (p : Program) → AreOpts opts.build → KeepsGenuine files → AreBytes input →
        IsSeen files shown → IsProgramOf (module_map shown) p → WhereEffect files opts k input effect → effect.answer ≡ Done → TellsTruth shown opts k input effect.output p }
{
    files_are_seen_in_one_way();
    genuine_objects_are_seen();
    genuine_objects_give_the_full_build();
    genuine_objects_give_the_full_image();
    images_and_files_are_one_to_one();
    modules_of_files_have_plain_names();
    full_builds_tell_the_truth();
}

/// The debugger loses no walk over the frames of a defined program: where `where K` is answered with `NoFrames`, the program is not
/// defined on the input.
pub fn walks_are_lost_where_undefined()
    ensures { (files shown : Files) (opts : RunOpts) (k : ℕ) (input : List ℕ) (effect : Effect) (p : Program) (address : ℕ) → AreOpts opts.build → KeepsGenuine files → AreBytes input →
        IsSeen files shown → IsProgramOf (module_map shown) p → WhereEffect files opts k input effect → effect.answer ≡ NoFrames address → LosesUndefined shown opts input p }
{
    files_are_seen_in_one_way();
    genuine_objects_are_seen();
    genuine_objects_give_the_full_build();
    genuine_objects_give_the_full_image();
    images_and_files_are_one_to_one();
    modules_of_files_have_plain_names();
    full_builds_tell_the_truth();
}
