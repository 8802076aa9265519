//! What a run of the interpreter's machine has written and read stays, whatever follows.
#![tactic(auto)]

ghost use Rattle.std.specs.Prelude.{ℕ, List};
ghost use Rattle.pw_value.specs.declared.value.Value.{Value};
ghost use Rattle.pw_cmean.specs.Worlds.{Body, Callable, World};
ghost use Rattle.pw_cmean.specs.Acts.{Outcome, State};
ghost use Rattle.pw_cmean.specs.Lasting.{IsLater, state_behind};
ghost use Rattle.pw_cmean.specs.Evaluation.{call};
ghost use Rattle.pw_cmean.specs.SourceRun.{calls};
ghost use Rattle.pw_interp_state.specs.Shown.{Shown, Streams};
ghost use Rattle.pw_interp_machine.specs.declared.machine.Machine.{Machine};
ghost use Rattle.pw_interp_machine.specs.Orders.{then_finished};
ghost use Rattle.pw_interp_machine.specs.Standing.{Stands};
ghost use Rattle.pw_interp_lasting.specs.Going.{GoesOnFrom};

/// What a run comes to from where a machine stands has all that was written, and behind it what follows, and reads on from
/// where it had got to; and so has the run that a call of main begins.
pub fn runs_go_on()
    ensures machines { (main : Body) (world : World) (machine : Machine) (now : Shown × Streams) (end : Outcome (Unit {0})) → Stands main world machine now end → GoesOnFrom now.1 (state_behind end) }
    ensures starts { (world : World) (bound : ℕ) (f : Callable) (args : List Value) (main : Body) (s : State) → IsLater s (state_behind (then_finished (call world (calls world bound) f args) main s)) }
{}
