//! The law of the command. The function here does nothing: its clause is a fact about all values.

ghost use Rattle.std.specs.Prelude.{ℕ, List};
ghost use Rattle.pw_io.specs.Files.{Files};
ghost use Rattle.pw_top_answer.specs.Effects.{Effect};
ghost use Rattle.pw_build_opts.specs.declared.opts.RunOpts.{RunOpts};
ghost use Rattle.pw_go.specs.Ends.{EndsIn};
ghost use Rattle.pw_commands_where.specs.Showing.{WhereEffect};

/// What `where` leaves of its input is what stands behind the prefix that its run read.
pub fn looks_leave_an_end()
    ensures { (files : Files) (opts : RunOpts) (k : ℕ) (input : List ℕ) (effect : Effect) → WhereEffect files opts k input effect → EndsIn input effect.rest }
{}
