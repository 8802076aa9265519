//! The arguments of calls: they are evaluated from left to right, and each value is held on the list of what is left to do.

ghost use Rattle.std.specs.Prelude.{◌≡◌, [], ℕ, IfErr, IfOk};
ghost use Rattle.pw_typed.specs.Views.{view_exprs};
ghost use Rattle.pw_cmean.specs.Acts.{State as AnyState};
ghost use Rattle.pw_cmean.specs.Evaluation.{Env, values_of};
ghost use Rattle.pw_cmean.specs.SourceRun.{calls};
ghost use Rattle.pw_interp_todo.specs.Operands.{call_behind};
ghost use Rattle.pw_interp_todo.specs.Resuming as spec;
ghost use Rattle.pw_interp_todo.specs.Resuming.{Rest, control_act, resume};
ghost use Rattle.pw_interp_pushes.specs.Orders.{then_gave, then_listed};

use pw_interp_calls::Stop;
use pw_interp_todo::{Asked, Callee, Control, Todo};
use pw_typed::TExpr;
use pw_value::Value;
use std::alloc::{AllocError, Global};

/// The arguments of a call that are left: the first comes, and those behind it go on the list.
pub fn push_arguments<'a>(
    todo: &mut Vec<Todo<'a>>,
    args: &'a [TExpr],
    token: usize,
) -> Result<Control<'a>, AllocError>
    ensures { IfOk result (λ control. (e : Env) (bound : ℕ) (rest : Rest) (s : AnyState) →
        (then_listed (values_of (view_exprs args.now) token (calls e.world bound) e) (resume todo.old.items rest) e bound) s
        ≡ control_act control e bound (resume todo.new.items rest) s) }
{
    match args.split_first() {
        Some((first, rest)) => {
            todo.push(Todo::Argument(rest, token))?;
            Ok(Control::Ask(Asked::Answer(first)))
        }
        None => Ok(Control::Listed),
    }
}

/// The values that are held, from the first argument's to the last's, and what is called with them; they leave the list. No
/// list of a machine has anything else behind the arguments of a call: of another, want of memory says nothing.
pub fn take_arguments<'a>(
    alloc: Global,
    todo: &mut Vec<Todo<'a>>,
) -> Result<(Vec<Value>, Callee<'a>), Stop<'a>>
    ensures taken { IfOk result (λ r. (e : Env) (bound : ℕ) (rest : Rest) →
        resume todo.old.items rest e bound (spec.Listed []) ≡ (then_gave (call_behind r.1 r.0.items e bound) (resume todo.new.items rest) e bound)) }
    ensures no_memory { IfErr result (λ stop. stop ≡ Stop.NoMemory) }
{
    let mut values = Vec::new(alloc);
    while let Some(last) = todo.pop() {
        match last {
            Todo::Held(value) => values.push(value)?,
            Todo::Call(callee) => {
                values.reverse();
                return Ok((values, callee));
            }
            _ => return Err(Stop::NoMemory),
        }
    }
    Err(Stop::NoMemory)
}
