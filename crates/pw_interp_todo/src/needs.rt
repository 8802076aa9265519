//! What is there in each accepted program, and whether a result is unlike 0.

ghost use Rattle.std.specs.Prelude.{◌≡◌};
ghost use Rattle.pw_interp_state.specs.Shown.{view_state};
ghost use Rattle.pw_interp_calls.specs.Answers.{Answers};
ghost use Rattle.pw_interp_calls.specs.Views.{view_env};
ghost use Rattle.pw_interp_todo.specs.Needs.{needed};
ghost use Rattle.pw_interp_todo.specs.Operands as operands;

use pw_interp_acts::{truth, used};
use pw_interp_calls::{Ending, Env, Stop};
use pw_interp_state::State;
use pw_value::Value;

/// The value that must be there: in an accepted program it is.
pub fn need<'a, T>(value: Option<T>) -> Result<T, Stop<'a>>
    ensures { result ≡ needed value }
{
    match value {
        Some(there) => Ok(there),
        None => Err(Stop::Ended(Ending::Wrong)),
    }
}

/// Whether an operand or a condition that gave this result is unlike 0, at the node of the token.
pub fn tested<'a>(
    env: &Env<'a>,
    state: &State,
    token: usize,
    given: Option<Value>,
) -> Result<bool, Stop<'a>>
    ensures { Answers (λ x. x) (view_env env.now).world (operands.tested (view_env env.now) token given) (view_state state.now) result (view_state state.now) }
{
    let value = used(env, token, given)?;
    truth(env, state, token, value)
}
