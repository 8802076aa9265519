//! Assignments that read what they write.

ghost use Rattle.std.specs.Prelude.{◌≡◌, ◌≢◌, IfErr};
ghost use Rattle.pw_types.specs.Views.{view_type};
ghost use Rattle.pw_cmean.specs.Evaluation as meaning;
ghost use Rattle.pw_interp_state.specs.Shown.{view_state};
ghost use Rattle.pw_interp_calls.specs.Answers.{Answers};
ghost use Rattle.pw_interp_calls.specs.Views.{view_env};
ghost use Rattle.pw_interp_acts.specs.Results as spec;

use crate::nodes::{binary, convert, load, put};
use pw_interp_calls::{Env, Stop};
use pw_interp_state::{Purpose, State};
use pw_types::{BinaryOperator, CType, IntKind, StepOperator, promote, step_operator};
use pw_value::Value;
use std::alloc::Global;

/// The value of an assignment: that of its left operand behind it, of a structure or union the place.
#[tactic(auto, unfolding(pw_types::specs::Views::view_type), using(pw_types::proofs::ViewLemmas::signature_view))]
pub fn assigned(ty: &CType, place: Value, v: Value) -> Value
    ensures { result ≡ meaning.assigned (view_type ty.now) place v }
{
    match ty {
        CType::Record(_) => place,
        _ => v,
    }
}

/// The old value of an lvalue of a type, in the type in which an operator works.
pub fn old_value<'a>(
    env: &Env<'a>,
    state: &State,
    token: usize,
    ty: &CType,
    working: &CType,
    place: Value,
) -> Result<Value, Stop<'a>>
    ensures answers { Answers (λ x. x) (view_env env.now).world (meaning.old_value (view_env env.now) token (view_type ty.now) (view_type working.now) place) (view_state state.now) result (view_state state.now) }
    ensures no_memory { IfErr result (λ stop. stop ≢ Stop.NoMemory) }
{
    let old = load(env, state, token, ty, place)?;
    convert(env, token, working, old)
}

/// The new value behind an operator on the old one, converted to the lvalue's type and stored.
pub fn update<'a>(
    alloc: Global,
    env: &Env<'a>,
    state: &mut State,
    token: usize,
    ty: &CType,
    place: Value,
    op: BinaryOperator,
    types: (&CType, &CType),
    values: (Value, Value),
) -> Result<Value, Stop<'a>>
    ensures { Answers (λ x. x) (view_env env.now).world (meaning.update (view_env env.now) token (view_type ty.now) (view_type types.entry.0.now) place op (view_type types.entry.1.now) values.0 values.1) (view_state state.old) result (view_state state.new) }
{
    let new = binary(env, state, token, op, types, values)?;
    let value = convert(env, token, ty, new)?;
    put(
        alloc,
        env,
        state,
        Purpose::Assigning,
        token,
        ty,
        place,
        value,
    )?;
    Ok(value)
}

/// Behind its operand the value of a step is the old one.
fn step_result(op: StepOperator, old: Value, new: Value) -> Value
    ensures { result ≡ meaning.step_result op old new }
{
    match op {
        StepOperator::IncrementBefore | StepOperator::DecrementBefore => new,
        StepOperator::IncrementBehind | StepOperator::DecrementBehind => old,
    }
}

/// `++` or `--` of an lvalue of a type, by an operation in another.
fn step_in<'a>(
    alloc: Global,
    env: &Env<'a>,
    state: &mut State,
    token: usize,
    op: StepOperator,
    ty: &CType,
    working: &CType,
    place: Value,
) -> Result<Value, Stop<'a>>
    ensures { Answers (λ x. x) (view_env env.now).world (spec.step_in (view_env env.now) token op (view_type ty.now) (view_type working.now) place) (view_state state.old) result (view_state state.new) }
{
    let old = load(env, state, token, ty, place)?;
    let value = convert(env, token, working, old)?;
    let one = (value, Value::Num(1));
    let types = (working, &CType::Int(IntKind::Int));
    let operator = step_operator(op);
    let new = update(alloc, env, state, token, ty, place, operator, types, one)?;
    Ok(step_result(op, old, new))
}

/// The kind in which a step of an integer works, which is the promoted one.
#[tactic(auto, unfolding(pw_types::specs::Views::view_type), using(pw_types::proofs::ViewLemmas::signature_view))]
fn working_kind(ty: &CType) -> Option<IntKind>
    ensures { result ≡ spec.working_kind (view_type ty.now) }
{
    match ty {
        CType::Int(kind) => Some(promote(*kind)),
        _ => None,
    }
}

/// `++` or `--` of an lvalue of a type, which adds or subtracts the int 1 in the promoted type (ISO C90 6.3.2.4, 6.3.3.1).
pub fn step<'a>(
    alloc: Global,
    env: &Env<'a>,
    state: &mut State,
    token: usize,
    op: StepOperator,
    ty: &CType,
    place: Value,
) -> Result<Value, Stop<'a>>
    ensures { Answers (λ x. x) (view_env env.now).world (meaning.step (view_env env.now) token op (view_type ty.now) place) (view_state state.old) result (view_state state.new) }
{
    match working_kind(ty) {
        Some(kind) => {
            let working = CType::Int(kind);
            step_in(alloc, env, state, token, op, ty, &working, place)
        }
        None => step_in(alloc, env, state, token, op, ty, ty, place),
    }
}
