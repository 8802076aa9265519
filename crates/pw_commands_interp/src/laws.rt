//! The laws of the command. The functions here do nothing: their clauses are facts about all values.

ghost use Rattle.std.specs.Prelude.{◌≡◌, ◌++◌, List, ℕ};
ghost use Rattle.pw_io.specs.Files.{Files};
ghost use Rattle.pw_top_answer.specs.Effects.{Effect};
ghost use Rattle.pw_build_opts.specs.declared.opts.RunOpts.{RunOpts};
ghost use Rattle.pw_build_files.specs.Genuine.{KeepsGenuine};
ghost use Rattle.pw_commands_interp.specs.Interpreting.{InterpEffect, InterpsInFull};

use pw_build_files::{genuine_objects_are_seen, genuine_objects_give_the_full_build};

/// What `interp` leaves of its input is what stands behind the prefix that the program read.
pub fn runs_leave_a_rest()
    ensures { (files : Files) (opts : RunOpts) (input : List ℕ) (effect : Effect) → InterpEffect files opts input effect → (prefix : List ℕ) × (input ≡ prefix ++ effect.rest) }
{}

/// Where the kept objects are genuine, `interp` comes to what it comes to over the full build of the modules.
pub fn genuine_objects_run_as_the_full_build()
    ensures { (files : Files) (opts : RunOpts) (input : List ℕ) (effect : Effect) → KeepsGenuine files → InterpEffect files opts input effect → InterpsInFull files opts input effect }
{
    genuine_objects_are_seen();
    genuine_objects_give_the_full_build();
}
