//! What a step in the call that runs came to.

ghost use Rattle.pw_cmean.specs.Worlds as worlds;
ghost use Rattle.pw_interp_calls.specs.Views.{view_env};
ghost use Rattle.pw_interp_state.specs.Shown.{Shown};
ghost use Rattle.pw_interp_pushes.specs.declared.call.Call as code;
ghost use Rattle.pw_interp_pushes.specs.Staying.{StepsCall};
ghost use Rattle.pw_interp_machine.specs.Stepping.{StepsAt};

use crate::machine::Machine;
use pw_interp_calls::Stop;
use pw_interp_todo::Control;

/// Goes on where a step in the call that runs came to this.
pub fn settle<'a>(
    machine: &mut Machine<'a>,
    answer: Result<Control<'a>, Stop<'a>>,
) -> Result<(), Stop<'a>>
    ensures { (main : worlds.Body) (old : code.Call) (act : _) (before behind : Shown) → StepsCall old act before answer.entry machine.old.call behind
        → StepsAt main (view_env old.env).world old machine.old.callers.items act before result machine.new behind }
{
    let control = answer?;
    machine.control = control;
    Ok(())
}
