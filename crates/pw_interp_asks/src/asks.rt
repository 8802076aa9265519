//! What is left of what is asked of an expression, before anything of it is evaluated.

ghost use Rattle.std.specs.Prelude.{◌≡◌, ℕ, None, option_map, true};
ghost use Rattle.pw_typed.specs.Views.{view_expr, view_form};
ghost use Rattle.pw_interp_state.specs.Shown.{Shown, view_state};
ghost use Rattle.pw_interp_calls.specs.Evaluates.{Evaluates, Locates};
ghost use Rattle.pw_interp_calls.specs.Views.{view_env};
ghost use Rattle.pw_interp_todo.specs.Asking as spec;
ghost use Rattle.pw_interp_todo.specs.Asking.{view_asked, answered, placed, asked_act};
ghost use Rattle.pw_interp_todo.specs.Steps.{StepsExpression};
ghost use Rattle.pw_interp_asks.specs.Groups.{is_leaf, is_alone};

use crate::names::{
    function, function_place, global, global_place, local, no_place, own_place, string,
    string_place,
};
use pw_interp_calls::{Env, Stop};
use pw_interp_state::State;
use pw_interp_todo::{Asked, Callee, Next, Operand};
use pw_typed::{TExpr, TForm};
use pw_value::Value;
use std::alloc::Global;

/// What is evaluated first for the result of an expression.
#[tactic(auto, unfolding(pw_typed::specs::Views::view_form), using(pw_typed::proofs::Rows::call_view, pw_typed::proofs::Rows::call_value_view))]
fn answer_first<'a>(e: &'a TExpr) -> Option<Asked<'a>>
    ensures { option_map view_asked result ≡ spec.answer_first (view_form e.now.form) }
{
    match &e.form {
        TForm::Unary(_, a) | TForm::Binary(_, a, _) | TForm::Logic(_, a, _) => {
            Some(Asked::Answer(a))
        }
        TForm::Cond(a, _, _) | TForm::Comma(a, _) | TForm::Cast(a) => Some(Asked::Answer(a)),
        TForm::Deref(a) | TForm::CallValue(a, _) => Some(Asked::Answer(a)),
        TForm::Assign(a, _) | TForm::Compound(_, _, a, _) => Some(Asked::Place(a)),
        TForm::Step(_, a) | TForm::Member(a, _) => Some(Asked::Place(a)),
        TForm::Number(_) | TForm::Str(_) | TForm::Local(_) => None,
        TForm::Global(_) | TForm::Function(_) | TForm::Call(_, _) => None,
        TForm::Decay(_) | TForm::Address(_) => None,
    }
}

/// What is evaluated first for its place.
#[tactic(auto, unfolding(pw_typed::specs::Views::view_form), using(pw_typed::proofs::Rows::call_view, pw_typed::proofs::Rows::call_value_view))]
fn place_first<'a>(e: &'a TExpr) -> Option<Asked<'a>>
    ensures { option_map view_asked result ≡ spec.place_first (view_form e.now.form) }
{
    match &e.form {
        TForm::Member(a, _) | TForm::Assign(a, _) => Some(Asked::Place(a)),
        TForm::Deref(a) | TForm::Cond(a, _, _) | TForm::Comma(a, _) => Some(Asked::Answer(a)),
        _ => None,
    }
}

/// The value of a constant, a string or a name.
#[tactic(auto, unfolding(pw_typed::specs::Views::view_form), using(pw_typed::proofs::Rows::call_view, pw_typed::proofs::Rows::call_value_view))]
fn leaf<'a>(
    alloc: Global,
    env: &Env<'a>,
    state: &State,
    e: &TExpr,
) -> Result<Option<Value>, Stop<'a>>
    requires { is_leaf (view_form e.now.form) ≡ true }
    ensures { (bound : ℕ) → Evaluates (view_env env.now) bound (view_expr e.now) (view_state state.now) result (view_state state.now) }
{
    match &e.form {
        TForm::Number(n) => Ok(Some(Value::Num(*n))),
        TForm::Str(number) => string(alloc, env, state, e.token, &e.ty, *number),
        TForm::Local(place) => local(env, state, e.token, &e.ty, *place),
        TForm::Global(symbol) => global(alloc, env, state, e.token, &e.ty, symbol),
        TForm::Function(symbol) => function(alloc, env, state, e.token, &e.ty, symbol),
        _ => unreachable!(),
    }
}

/// The place of a string or a name; what denotes no place has none.
#[tactic(auto, unfolding(pw_typed::specs::Views::view_form), using(pw_typed::proofs::Rows::call_view, pw_typed::proofs::Rows::call_value_view))]
fn lone_place<'a>(alloc: Global, env: &Env<'a>, e: &TExpr) -> Result<Value, Stop<'a>>
    requires { is_alone (view_form e.now.form) ≡ true }
    ensures { (bound : ℕ) (s : Shown) → Locates (view_env env.now) bound (view_expr e.now) s result s }
{
    match &e.form {
        TForm::Str(number) => string_place(alloc, env, *number),
        TForm::Local(place) => own_place(env, *place),
        TForm::Global(symbol) => global_place(alloc, env, symbol),
        TForm::Function(symbol) => function_place(alloc, env, symbol),
        TForm::Number(_) | TForm::Unary(_, _) | TForm::Binary(_, _, _) => no_place(),
        TForm::Logic(_, _, _) | TForm::Compound(_, _, _, _) | TForm::Step(_, _) => no_place(),
        TForm::Cast(_) | TForm::Decay(_) | TForm::Address(_) => no_place(),
        TForm::Call(_, _) | TForm::CallValue(_, _) => no_place(),
        TForm::Cond(_, _, _) | TForm::Comma(_, _) | TForm::Assign(_, _) => unreachable!(),
        TForm::Member(_, _) | TForm::Deref(_) => unreachable!(),
    }
}

/// What is left of a constant, a string or a name: its value.
fn leaf_value<'a>(
    alloc: Global,
    env: &Env<'a>,
    state: &State,
    e: &TExpr,
) -> Result<Next<'a>, Stop<'a>>
    requires { is_leaf (view_form e.now.form) ≡ true }
    ensures { StepsExpression (view_env env.now) (answered (view_expr e.now)) (view_state state.now) result (view_state state.now) }
{
    let value = leaf(alloc, env, state, e)?;
    Ok(Next::Gave(value))
}

/// What is left of an expression for whose result nothing is evaluated first.
#[tactic(auto, unfolding(pw_typed::specs::Views::view_form), using(pw_typed::proofs::Rows::call_view, pw_typed::proofs::Rows::call_value_view))]
fn answer_alone<'a>(
    alloc: Global,
    env: &Env<'a>,
    state: &State,
    e: &'a TExpr,
) -> Result<Next<'a>, Stop<'a>>
    requires { spec.answer_first (view_form e.now.form) ≡ None }
    ensures { StepsExpression (view_env env.now) (answered (view_expr e.now)) (view_state state.now) result (view_state state.now) }
{
    match &e.form {
        TForm::Number(_) | TForm::Str(_) | TForm::Local(_) => leaf_value(alloc, env, state, e),
        TForm::Global(_) | TForm::Function(_) => leaf_value(alloc, env, state, e),
        TForm::Call(symbol, args) => Ok(Next::Arguments(args, e.token, Callee::Named(symbol))),
        TForm::Decay(a) => Ok(Next::Ask(Asked::Place(a))),
        TForm::Address(a) => Ok(Next::Ask(Asked::Place(a))),
        _ => unreachable!(),
    }
}

/// What is left of an lvalue for whose place nothing is evaluated first: its place.
fn place_alone<'a>(
    alloc: Global,
    env: &Env<'a>,
    state: &State,
    e: &TExpr,
) -> Result<Next<'a>, Stop<'a>>
    requires { spec.place_first (view_form e.now.form) ≡ None }
    ensures { StepsExpression (view_env env.now) (placed (view_expr e.now)) (view_state state.now) result (view_state state.now) }
{
    let place = lone_place(alloc, env, e)?;
    Ok(Next::Gave(Some(place)))
}

/// What is left of an expression of which the result is asked: what is evaluated first for it, and what follows behind that.
fn ask_answer<'a>(
    alloc: Global,
    env: &Env<'a>,
    state: &State,
    e: &'a TExpr,
) -> Result<Next<'a>, Stop<'a>>
    ensures { StepsExpression (view_env env.now) (answered (view_expr e.now)) (view_state state.now) result (view_state state.now) }
{
    match answer_first(e) {
        Some(first) => Ok(Next::Behind(first, Operand::First(Asked::Answer(e)))),
        None => answer_alone(alloc, env, state, e),
    }
}

/// What is left of an lvalue of which the place is asked: what is evaluated first for it, and what follows behind that.
fn ask_place<'a>(
    alloc: Global,
    env: &Env<'a>,
    state: &State,
    e: &'a TExpr,
) -> Result<Next<'a>, Stop<'a>>
    ensures { StepsExpression (view_env env.now) (placed (view_expr e.now)) (view_state state.now) result (view_state state.now) }
{
    match place_first(e) {
        Some(first) => Ok(Next::Behind(first, Operand::First(Asked::Place(e)))),
        None => place_alone(alloc, env, state, e),
    }
}

/// What is left to do where the value of an expression, or the place of an lvalue, is asked: the operand that is
/// evaluated first with what follows behind it, or at once the value or the place.
pub fn ask<'a>(
    alloc: Global,
    env: &Env<'a>,
    state: &State,
    asked: Asked<'a>,
) -> Result<Next<'a>, Stop<'a>>
    ensures { StepsExpression (view_env env.now) (asked_act asked.entry) (view_state state.now) result (view_state state.now) }
{
    match asked {
        Asked::Answer(e) => ask_answer(alloc, env, state, e),
        Asked::Place(e) => ask_place(alloc, env, state, e),
    }
}
