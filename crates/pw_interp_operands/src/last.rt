//! The results of operators, behind their last operands.

ghost use Rattle.std.specs.Prelude.{◌≡◌, option_map};
ghost use Rattle.pw_typed.specs.Views.{view_expr};
ghost use Rattle.pw_types.specs.Views.{view_type};
ghost use Rattle.pw_cmean.specs.Operators.{number_for};
ghost use Rattle.pw_interp_state.specs.Shown.{view_state};
ghost use Rattle.pw_interp_calls.specs.Views.{view_env};
ghost use Rattle.pw_interp_todo.specs.Operands as spec;
ghost use Rattle.pw_interp_todo.specs.Steps.{StepsExpression};

use pw_interp_acts::{assigned, binary, put, update, used};
use pw_interp_calls::{Env, Stop};
use pw_interp_state::{Purpose, State};
use pw_interp_todo::{Next, need, tested};
use pw_typed::{TExpr, TForm};
use pw_types::{BinaryOperator, CType};
use pw_value::Value;
use std::alloc::Global;

/// 1 where it holds, and else 0.
pub fn word(holds: bool) -> u32
    ensures { result ≡ number_for holds }
{
    u32::from(holds)
}

/// A binary operator and the types of its operands.
#[tactic(auto, unfolding(pw_typed::specs::Views::view_form), using(pw_typed::proofs::Rows::call_view, pw_typed::proofs::Rows::call_value_view))]
fn binary_in<'a>(e: &'a TExpr) -> Option<(BinaryOperator, &'a CType, &'a CType)>
    ensures { option_map (λ p. (p.0, view_type p.1.now, view_type p.2.now)) result ≡ spec.binary_in (view_expr e.now) }
{
    match &e.form {
        TForm::Binary(op, a, b) => Some((*op, &a.ty.ty, &b.ty.ty)),
        _ => None,
    }
}

/// The type of the left operand of an assignment.
#[tactic(auto, unfolding(pw_typed::specs::Views::view_form), using(pw_typed::proofs::Rows::call_view, pw_typed::proofs::Rows::call_value_view))]
fn target_in<'a>(e: &'a TExpr) -> Option<&'a CType>
    ensures { option_map (λ ty. view_type ty.now) result ≡ spec.target_in (view_expr e.now) }
{
    match &e.form {
        TForm::Assign(a, _) => Some(&a.ty.ty),
        _ => None,
    }
}

/// An operator with `=`, the type in which it works, and the types of its operands.
#[tactic(auto, unfolding(pw_typed::specs::Views::view_form), using(pw_typed::proofs::Rows::call_view, pw_typed::proofs::Rows::call_value_view))]
fn compound_in<'a>(e: &'a TExpr) -> Option<(BinaryOperator, &'a CType, &'a CType, &'a CType)>
    ensures { option_map (λ p. (p.0, view_type p.1.now, view_type p.2.now, view_type p.3.now)) result ≡ spec.compound_in (view_expr e.now) }
{
    match &e.form {
        TForm::Compound(op, working, a, b) => Some((*op, working, &a.ty.ty, &b.ty.ty)),
        _ => None,
    }
}

/// A binary operator, behind its right operand.
pub fn right<'a>(
    env: &Env<'a>,
    state: &State,
    e: &TExpr,
    left: Value,
    given: Option<Value>,
) -> Result<Next<'a>, Stop<'a>>
    ensures { StepsExpression (view_env env.now) (spec.right_behind (view_expr e.now) left given) (view_state state.now) result (view_state state.now) }
{
    let value = used(env, e.token, given)?;
    let node = need(binary_in(e))?;
    let types = (node.1, node.2);
    let result = binary(env, state, e.token, node.0, types, (left, value))?;
    Ok(Next::Gave(Some(result)))
}

/// `&&` or `||`, behind its second operand.
pub fn second<'a>(
    env: &Env<'a>,
    state: &State,
    e: &TExpr,
    given: Option<Value>,
) -> Result<Next<'a>, Stop<'a>>
    ensures { StepsExpression (view_env env.now) (spec.second_behind (view_expr e.now) given) (view_state state.now) result (view_state state.now) }
{
    let second = tested(env, state, e.token, given)?;
    Ok(Next::Gave(Some(Value::Num(word(second)))))
}

/// `=`, behind its right operand: the value is put at the place.
pub fn assign<'a>(
    alloc: Global,
    env: &Env<'a>,
    state: &mut State,
    e: &TExpr,
    place: Value,
    given: Option<Value>,
) -> Result<Next<'a>, Stop<'a>>
    ensures { StepsExpression (view_env env.now) (spec.assigned_behind (view_expr e.now) place given) (view_state state.old) result (view_state state.new) }
{
    let value = used(env, e.token, given)?;
    let ty = need(target_in(e))?;
    let purpose = Purpose::Assigning;
    put(alloc, env, state, purpose, e.token, ty, place, value)?;
    Ok(Next::Gave(Some(assigned(ty, place, value))))
}

/// `=` of structures or unions whose place is asked, behind its right operand.
pub fn store<'a>(
    alloc: Global,
    env: &Env<'a>,
    state: &mut State,
    e: &TExpr,
    place: Value,
    given: Option<Value>,
) -> Result<Next<'a>, Stop<'a>>
    ensures { StepsExpression (view_env env.now) (spec.stored_behind (view_expr e.now) place given) (view_state state.old) result (view_state state.new) }
{
    let value = used(env, e.token, given)?;
    let ty = need(target_in(e))?;
    let purpose = Purpose::Assigning;
    put(alloc, env, state, purpose, e.token, ty, place, value)?;
    Ok(Next::Gave(Some(place)))
}

/// An operator with `=`, behind its right operand.
pub fn compound<'a>(
    alloc: Global,
    env: &Env<'a>,
    state: &mut State,
    e: &TExpr,
    place: Value,
    old: Value,
    given: Option<Value>,
) -> Result<Next<'a>, Stop<'a>>
    ensures { StepsExpression (view_env env.now) (spec.updated_behind (view_expr e.now) place old given) (view_state state.old) result (view_state state.new) }
{
    let value = used(env, e.token, given)?;
    let node = need(compound_in(e))?;
    let types = (node.1, node.3);
    let values = (old, value);
    let result = update(
        alloc, env, state, e.token, node.2, place, node.0, types, values,
    )?;
    Ok(Next::Gave(Some(result)))
}
