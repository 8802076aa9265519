//! What is left of an expression behind an operand, by what the operand is for.

ghost use Rattle.pw_interp_state.specs.Shown.{view_state};
ghost use Rattle.pw_interp_calls.specs.Views.{view_env};
ghost use Rattle.pw_interp_todo.specs.Operands as spec;
ghost use Rattle.pw_interp_todo.specs.Steps.{StepsExpression};

use crate::answers::answer_behind;
use crate::last::{assign, compound, right, second, store};
use crate::places::place_behind;
use pw_interp_calls::{Env, Stop};
use pw_interp_state::State;
use pw_interp_todo::{Asked, Next, Operand};
use pw_value::Value;
use std::alloc::Global;

/// What is left of an expression behind an operand that gave this result.
pub fn behind<'a>(
    alloc: Global,
    env: &Env<'a>,
    state: &mut State,
    operand: Operand<'a>,
    given: Option<Value>,
) -> Result<Next<'a>, Stop<'a>>
    ensures { StepsExpression (view_env env.now) (spec.behind operand.entry given) (view_state state.old) result (view_state state.new) }
{
    match operand {
        Operand::First(Asked::Answer(e)) => answer_behind(alloc, env, state, e, given),
        Operand::First(Asked::Place(e)) => place_behind(env, state, e, given),
        Operand::Right(e, left) => right(env, state, e, left, given),
        Operand::Second(e) => second(env, state, e, given),
        Operand::Assigned(Asked::Answer(e), place) => assign(alloc, env, state, e, place, given),
        Operand::Assigned(Asked::Place(e), place) => store(alloc, env, state, e, place, given),
        Operand::Updated(e, place, old) => compound(alloc, env, state, e, place, old, given),
    }
}
