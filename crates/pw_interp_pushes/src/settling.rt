//! What goes on where an act of a call was done.

ghost use Rattle.pw_interp_calls.specs.Answers.{Answers};
ghost use Rattle.pw_interp_calls.specs.Views.{view_env};
ghost use Rattle.pw_interp_state.specs.Shown.{Shown};
ghost use Rattle.pw_interp_todo.specs.Leading.{Continues};
ghost use Rattle.pw_interp_todo.specs.Transfers.{transfer_act};
ghost use Rattle.pw_interp_pushes.specs.declared.call.Call as code;
ghost use Rattle.pw_interp_pushes.specs.Staying.{StepsCall};
ghost use Rattle.pw_interp_pushes.specs.Orders.{then_gave};

use pw_interp_calls::Stop;
use pw_interp_todo::{Control, Transfer};
use pw_value::Value;

/// What goes on where an act of the call gave this.
pub fn given<'a>(answer: Result<Option<Value>, Stop<'a>>) -> Result<Control<'a>, Stop<'a>>
    ensures { (call : code.Call) (act : _) (before behind : Shown) → Answers (λ v. v) (view_env call.env).world act before answer.entry behind
        → StepsCall call (λ rest. then_gave act rest (view_env call.env) call.bound) before result call behind }
{
    let value = answer?;
    Ok(Control::Gave(value))
}

/// What goes on where an act of the call reads or writes a byte.
pub fn transferred<'a>(answer: Result<Transfer, Stop<'a>>) -> Result<Control<'a>, Stop<'a>>
    ensures { (call : code.Call) (act : _) (before behind : Shown) → Continues transfer_act (view_env call.env).world act before answer.entry behind
        → StepsCall call (λ rest. then_gave act rest (view_env call.env) call.bound) before result call behind }
{
    let transfer = answer?;
    Ok(Control::Outside(transfer))
}
