//! What `interp` answers by the meaning of C: a law without code.
#![tactic(auto)]

ghost use Rattle.std.specs.Prelude.{◌≢◌, ℕ, List};
ghost use Rattle.pw_io.specs.Files.{Files};
ghost use Rattle.pw_build_opts.specs.declared.opts.RunOpts.{RunOpts};
ghost use Rattle.pw_build_files.specs.Genuine.{KeepsGenuine};
ghost use Rattle.pw_build_files.specs.Outcomes.{AreOpts};
ghost use Rattle.pw_top_answer.specs.declared.answer.Answer.TheVariants.{NoMemory};
ghost use Rattle.pw_top_answer.specs.Effects.{Effect};
ghost use Rattle.pw_run_languages.specs.Programs.{AreBytes};
ghost use Rattle.pw_commands_interp.specs.Interpreting.{InterpEffect, InterpsInFull};

use pw_commands_interp::laws::genuine_objects_run_as_the_full_build;
use pw_law_never::resolved_programs_are_never_wrong;
use pw_law_resolved::accepted_programs_are_resolved;
use pw_law_whole::{full_builds_are_whole, modules_of_files_have_plain_names};
use pw_phase_one::laws::typed_texts_are_exact;

/// What `interp` comes to over a full build, on an input of bytes, is no want of memory: modules that a build accepts are run to an
/// end that the meaning of C has, and all others are refused. So it is over any build whose kept objects are genuine.
pub fn meanings_want_no_memory()
    ensures full { (files : Files) (opts : RunOpts) (input : List ℕ) (effect : Effect) → AreOpts opts.build → AreBytes input → InterpsInFull files opts input effect → effect.answer ≢ NoMemory }
    ensures kept { (files : Files) (opts : RunOpts) (input : List ℕ) (effect : Effect) → AreOpts opts.build → AreBytes input → KeepsGenuine files → InterpEffect files opts input effect → effect.answer ≢ NoMemory }
{
    full_builds_are_whole();
    modules_of_files_have_plain_names();
    typed_texts_are_exact();
    accepted_programs_are_resolved();
    resolved_programs_are_never_wrong();
    genuine_objects_run_as_the_full_build();
}
