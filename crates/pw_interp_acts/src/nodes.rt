//! Operators and accesses at a node: what they answer of the objects is a value or the end of the run.

ghost use Rattle.std.specs.Prelude.{◌≡◌, ◌≢◌, ◌-◌, ◌^◌, ◌≤◌, Some, pos, IfErr, IsSomeAnd};
ghost use Rattle.pw_types.specs.Views.{view_type};
ghost use Rattle.pw_cmean.specs.Access as access;
ghost use Rattle.pw_cmean.specs.Evaluation.{site, records_of};
ghost use Rattle.pw_cmean.specs.Operators as operators;
ghost use Rattle.pw_interp_state.specs.Answers.{ending_of};
ghost use Rattle.pw_interp_state.specs.Categories.{view_purpose};
ghost use Rattle.pw_interp_state.specs.Elements as elements;
ghost use Rattle.pw_interp_state.specs.Moves.{bytes_by};
ghost use Rattle.pw_interp_state.specs.Runs.{at_node};
ghost use Rattle.pw_interp_state.specs.Shown.{Shown, view_state};
ghost use Rattle.pw_interp_calls.specs.Answers.{Answers};
ghost use Rattle.pw_interp_calls.specs.Endings.{told, told_stop};
ghost use Rattle.pw_interp_calls.specs.Views.{view_env};

use pw_interp_calls::{Ending, Env, Stop};
use pw_interp_state::{Fault, Move, Purpose, State, categorise};
use pw_interp_world::{element_layout, put_value};
use pw_types::{BinaryOperator, CType, UnaryOperator};
use pw_value::Value;
use std::alloc::Global;

/// How a fault at a node ends the run.
fn stop_at<'a>(env: &Env<'a>, token: usize, fault: Fault) -> Stop<'a>
    ensures { told_stop result ≡ Some (ending_of (site (view_env env.now) token) fault) }
{
    match fault {
        Fault::Undefined(operation) => {
            Stop::Ended(Ending::Undefined(operation, env.home.name, token))
        }
        Fault::Wrong => Stop::Ended(Ending::Wrong),
    }
}

/// What a step at a node answers, as a value or the end of the run.
pub fn settle<'a, T>(env: &Env<'a>, token: usize, answer: Result<T, Fault>) -> Result<T, Stop<'a>>
    ensures { told result ≡ Some (at_node (site (view_env env.now) token) answer) }
{
    match answer {
        Ok(value) => Ok(value),
        Err(fault) => Err(stop_at(env, token, fault)),
    }
}

/// Whether a scalar is unlike 0.
pub fn truth<'a>(env: &Env<'a>, state: &State, token: usize, v: Value) -> Result<bool, Stop<'a>>
    ensures answers { Answers (λ x. x) (view_env env.now).world (operators.truth (site (view_env env.now) token) v) (view_state state.now) result (view_state state.now) }
    ensures no_memory { IfErr result (λ stop. stop ≢ Stop.NoMemory) }
{
    settle(env, token, pw_interp_state::truth(&state.objects, v))
}

/// A unary operator, whose result has the type.
pub fn unary<'a>(
    env: &Env<'a>,
    state: &State,
    token: usize,
    op: UnaryOperator,
    ty: &CType,
    v: Value,
) -> Result<Value, Stop<'a>>
    ensures answers { Answers (λ x. x) (view_env env.now).world (operators.unary (site (view_env env.now) token) op (view_type ty.now) v) (view_state state.now) result (view_state state.now) }
    ensures no_memory { IfErr result (λ stop. stop ≢ Stop.NoMemory) }
{
    let answer = pw_interp_state::unary(&state.objects, op, categorise(ty), v);
    settle(env, token, answer)
}

/// A binary operator on operands of these types. There is no memory only where what a pointer among them points to has
/// 2^32 - 1 bytes or more.
pub fn binary<'a>(
    env: &Env<'a>,
    state: &State,
    token: usize,
    op: BinaryOperator,
    types: (&CType, &CType),
    values: (Value, Value),
) -> Result<Value, Stop<'a>>
    ensures answers { Answers (λ x. x) (view_env env.now).world (operators.binary (site (view_env env.now) token) (records_of (view_env env.now)) op (view_type types.entry.0.now) (view_type types.entry.1.now) values.0 values.1) (view_state state.now) result (view_state state.now) }
    ensures wants { IfErr result (λ stop. stop ≡ Stop.NoMemory → IsSomeAnd (elements.element_layout (records_of (view_env env.now)) (view_type types.entry.0.now) (view_type types.entry.1.now)) (λ l. 2 ^ 32 - 1 ≤ l.size)) }
{
    let (a, b) = types;
    let (v, w) = values;
    let layout = element_layout(&env.home.tree.types, a, b)?;
    let objects = &state.objects;
    let answer = pw_interp_state::binary(objects, layout, op, categorise(a), categorise(b), v, w);
    settle(env, token, answer)
}

/// A value converted to a type, or the end of a run that meets an undefined operation there.
pub fn convert<'a>(env: &Env<'a>, token: usize, ty: &CType, v: Value) -> Result<Value, Stop<'a>>
    ensures answers { (s : Shown) → Answers (λ x. x) (view_env env.now).world (operators.convert (site (view_env env.now) token) (view_type ty.now) v) s result s }
    ensures no_memory { IfErr result (λ stop. stop ≢ Stop.NoMemory) }
{
    settle(env, token, pw_interp_state::convert(categorise(ty), v))
}

/// A pointer so many bytes on, as to the member of a structure.
pub fn advance<'a>(
    env: &Env<'a>,
    state: &State,
    token: usize,
    p: Value,
    offset: u32,
) -> Result<Value, Stop<'a>>
    ensures answers { Answers (λ x. x) (view_env env.now).world (operators.advance (site (view_env env.now) token) p (pos offset)) (view_state state.now) result (view_state state.now) }
    ensures no_memory { IfErr result (λ stop. stop ≢ Stop.NoMemory) }
{
    let answer = pw_interp_state::advance(&state.objects, p, Move::On(u64::from(offset)));
    settle(env, token, answer)
}

/// Reads a scalar of a type at a place.
pub fn load<'a>(
    env: &Env<'a>,
    state: &State,
    token: usize,
    ty: &CType,
    place: Value,
) -> Result<Value, Stop<'a>>
    ensures answers { Answers (λ x. x) (view_env env.now).world (access.load (site (view_env env.now) token) (view_type ty.now) place) (view_state state.now) result (view_state state.now) }
    ensures no_memory { IfErr result (λ stop. stop ≢ Stop.NoMemory) }
{
    let answer = pw_interp_state::load(&state.objects, categorise(ty), place);
    settle(env, token, answer)
}

/// The value of an lvalue of a type at a place.
pub fn fetch<'a>(
    env: &Env<'a>,
    state: &State,
    token: usize,
    ty: &CType,
    place: Value,
) -> Result<Value, Stop<'a>>
    ensures answers { Answers (λ x. x) (view_env env.now).world (access.fetch (site (view_env env.now) token) (view_type ty.now) place) (view_state state.now) result (view_state state.now) }
    ensures no_memory { IfErr result (λ stop. stop ≢ Stop.NoMemory) }
{
    let answer = pw_interp_state::fetch(&state.objects, categorise(ty), place);
    settle(env, token, answer)
}

/// Puts a value into an object of a type at a place.
pub fn put<'a>(
    alloc: Global,
    env: &Env<'a>,
    state: &mut State,
    purpose: Purpose,
    token: usize,
    ty: &CType,
    place: Value,
    value: Value,
) -> Result<(), Stop<'a>>
    ensures { Answers (λ x. tt) (view_env env.now).world (access.put (view_purpose purpose) (site (view_env env.now) token) (records_of (view_env env.now)) (view_type ty.now) place value) (view_state state.old) result (view_state state.new) }
{
    let types = &env.home.tree.types;
    let answer = put_value(alloc, &mut state.objects, purpose, types, ty, place, value)?;
    settle(env, token, answer)
}
