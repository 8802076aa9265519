//! The results of expressions and the places of lvalues, of which nothing is called or chosen.

ghost use Rattle.std.specs.Prelude.{◌<◌, ℕ};
ghost use Rattle.pw_typed.specs.Views.{view_expr};
ghost use Rattle.pw_typed.specs.declared.tree.TForm.{size-TForm};
ghost use Rattle.pw_types.specs.TypeTrees as types;
ghost use Rattle.pw_types.specs.TypedTrees as tree;
ghost use Rattle.pw_types.specs.Views.{view_qtype, view_type};
ghost use Rattle.pw_interp_state.specs.Shown.{view_state};
ghost use Rattle.pw_interp_calls.specs.Answers.{Answers};
ghost use Rattle.pw_interp_calls.specs.Evaluates.{Evaluates, Locates};
ghost use Rattle.pw_interp_calls.specs.Views.{view_env};
ghost use Rattle.pw_interp_direct.specs.Direct.{IsDirect, HasDirectPlace};
ghost use Rattle.pw_interp_direct.specs.Operands.{operand_act};

use pw_interp_acts::{advance, assigned, cast, old_value, put, update, used, value_at};
use pw_interp_asks::{
    function, function_place, global, global_place, local, own_place, string, string_place,
};
use pw_interp_calls::{Env, Stop};
use pw_interp_state::{Purpose, State};
use pw_typed::{TExpr, TForm};
use pw_types::{BinaryOperator, CType, QType, StepOperator, UnaryOperator};
use pw_value::Value;
use std::alloc::Global;

/// The result of an expression in which nothing is called or chosen (ISO C90 6.3): None where it is void.
#[cycle(direct)]
#[tactic(auto, unfolding(pw_typed::specs::Views::view_form, crate::specs::Direct::IsDirect), using(pw_typed::proofs::Rows::call_view, pw_typed::proofs::Rows::call_value_view))]
pub fn answer_of<'a>(
    alloc: Global,
    env: &Env<'a>,
    state: &mut State,
    e: &TExpr,
) -> Result<Option<Value>, Stop<'a>>
    requires { IsDirect (view_expr e.now) }
    ensures { (bound : ℕ) → Evaluates (view_env env.now) bound (view_expr e.now) (view_state state.old) result (view_state state.new) }
{
    let token = e.token;
    match &e.form {
        TForm::Number(n) => Ok(Some(Value::Num(*n))),
        TForm::Str(number) => string(alloc, env, state, token, &e.ty, *number),
        TForm::Local(place) => local(env, state, token, &e.ty, *place),
        TForm::Global(symbol) => global(alloc, env, state, token, &e.ty, symbol),
        TForm::Function(symbol) => function(alloc, env, state, token, &e.ty, symbol),
        TForm::Unary(op, a) => unary(alloc, env, state, token, a, &e.ty, *op),
        TForm::Binary(op, a, b) => binary(alloc, env, state, e, a, b, *op),
        TForm::Assign(a, b) => assign(alloc, env, state, e, a, b),
        TForm::Compound(op, working, a, b) => { compound(alloc, env, state, e, a, b, working, *op) }
        TForm::Step(op, a) => step(alloc, env, state, token, *op, a),
        TForm::Cast(a) => converted(alloc, env, state, token, a, &e.ty),
        TForm::Decay(a) => placed(alloc, env, state, a),
        TForm::Address(a) => placed(alloc, env, state, a),
        TForm::Member(a, offset) => member(alloc, env, state, token, a, &e.ty, *offset),
        TForm::Deref(a) => through(alloc, env, state, token, a, &e.ty),
        TForm::Logic(_, _, _) | TForm::Cond(_, _, _) | TForm::Comma(_, _) => unreachable!(),
        TForm::Call(_, _) | TForm::CallValue(_, _) => unreachable!(),
    }
}

/// The place that an lvalue denotes (ISO C90 6.2.2.1).
#[cycle(direct)]
#[tactic(auto, unfolding(pw_typed::specs::Views::view_form, crate::specs::Direct::IsDirect), using(pw_typed::proofs::Rows::call_view, pw_typed::proofs::Rows::call_value_view))]
fn place_of<'a>(
    alloc: Global,
    env: &Env<'a>,
    state: &mut State,
    e: &TExpr,
) -> Result<Value, Stop<'a>>
    requires { HasDirectPlace (view_expr e.now) }
    ensures { (bound : ℕ) → Locates (view_env env.now) bound (view_expr e.now) (view_state state.old) result (view_state state.new) }
{
    match &e.form {
        TForm::Str(number) => string_place(alloc, env, *number),
        TForm::Local(place) => own_place(env, *place),
        TForm::Global(symbol) => global_place(alloc, env, symbol),
        TForm::Function(symbol) => function_place(alloc, env, symbol),
        TForm::Deref(a) => operand(alloc, env, state, e.token, a),
        TForm::Member(a, offset) => member_place(alloc, env, state, e.token, a, *offset),
        _ => unreachable!(),
    }
}

/// The value of an operand, which the node of the token meets where it is missing; of a pointer the place to which it points.
#[cycle(direct)]
fn operand<'a>(
    alloc: Global,
    env: &Env<'a>,
    state: &mut State,
    token: usize,
    a: &TExpr,
) -> Result<Value, Stop<'a>>
    requires { IsDirect (view_expr a.now) }
    ensures answers { (bound : ℕ) → Answers (λ x. x) (view_env env.now).world (operand_act (view_expr a.now) token bound (view_env env.now)) (view_state state.old) result (view_state state.new) }
    ensures points { (bound : ℕ) (ty : types.QType) → Locates (view_env env.now) bound (tree.Node token ty (tree.Deref (view_expr a.now))) (view_state state.old) result (view_state state.new) }
{
    let answer = answer_of(alloc, env, state, a)?;
    used(env, token, answer)
}

/// A unary operator.
#[cycle(direct)]
#[inline(never)]
fn unary<'a>(
    alloc: Global,
    env: &Env<'a>,
    state: &mut State,
    token: usize,
    a: &TExpr,
    ty: &QType,
    op: UnaryOperator,
) -> Result<Option<Value>, Stop<'a>>
    requires { IsDirect (view_expr a.now) }
    ensures { (bound : ℕ) → Evaluates (view_env env.now) bound (tree.Node token (view_qtype ty.now) (tree.Unary op (view_expr a.now))) (view_state state.old) result (view_state state.new) }
{
    let value = operand(alloc, env, state, token, a)?;
    let result = pw_interp_acts::unary(env, state, token, op, &ty.ty, value)?;
    Ok(Some(result))
}

/// A binary operator.
#[cycle(direct)]
fn binary<'a>(
    alloc: Global,
    env: &Env<'a>,
    state: &mut State,
    e: &TExpr,
    a: &TExpr,
    b: &TExpr,
    op: BinaryOperator,
) -> Result<Option<Value>, Stop<'a>>
    requires first { size-TForm a.now.form < size-TForm e.now.form }
    requires second { size-TForm b.now.form < size-TForm e.now.form }
    requires left { IsDirect (view_expr a.now) }
    requires right { IsDirect (view_expr b.now) }
    ensures { (bound : ℕ) (ty : types.QType) → Evaluates (view_env env.now) bound (tree.Node e.now.token ty (tree.Binary op (view_expr a.now) (view_expr b.now))) (view_state state.old) result (view_state state.new) }
{
    let left = operand(alloc, env, state, e.token, a)?;
    let right = operand(alloc, env, state, e.token, b)?;
    let types = (&a.ty.ty, &b.ty.ty);
    let result = pw_interp_acts::binary(env, state, e.token, op, types, (left, right))?;
    Ok(Some(result))
}

/// `=`.
#[cycle(direct)]
fn assign<'a>(
    alloc: Global,
    env: &Env<'a>,
    state: &mut State,
    e: &TExpr,
    a: &TExpr,
    b: &TExpr,
) -> Result<Option<Value>, Stop<'a>>
    requires first { size-TForm a.now.form < size-TForm e.now.form }
    requires second { size-TForm b.now.form < size-TForm e.now.form }
    requires place { HasDirectPlace (view_expr a.now) }
    requires value { IsDirect (view_expr b.now) }
    ensures { (bound : ℕ) (ty : types.QType) → Evaluates (view_env env.now) bound (tree.Node e.now.token ty (tree.Assign (view_expr a.now) (view_expr b.now))) (view_state state.old) result (view_state state.new) }
{
    let place = place_of(alloc, env, state, a)?;
    let value = operand(alloc, env, state, e.token, b)?;
    let ty = &a.ty.ty;
    let purpose = Purpose::Assigning;
    put(alloc, env, state, purpose, e.token, ty, place, value)?;
    Ok(Some(assigned(ty, place, value)))
}

/// An operator with `=`, which works in a type. The old value is read before the right operand is evaluated.
#[cycle(direct)]
#[inline(never)]
fn compound<'a>(
    alloc: Global,
    env: &Env<'a>,
    state: &mut State,
    e: &TExpr,
    a: &TExpr,
    b: &TExpr,
    working: &CType,
    op: BinaryOperator,
) -> Result<Option<Value>, Stop<'a>>
    requires first { size-TForm a.now.form < size-TForm e.now.form }
    requires second { size-TForm b.now.form < size-TForm e.now.form }
    requires place { HasDirectPlace (view_expr a.now) }
    requires value { IsDirect (view_expr b.now) }
    ensures { (bound : ℕ) (ty : types.QType) → Evaluates (view_env env.now) bound (tree.Node e.now.token ty (tree.Compound op (view_type working.now) (view_expr a.now) (view_expr b.now))) (view_state state.old) result (view_state state.new) }
{
    let place = place_of(alloc, env, state, a)?;
    let token = e.token;
    let ty = &a.ty.ty;
    let old = old_value(env, state, token, ty, working, place)?;
    let right = operand(alloc, env, state, token, b)?;
    let types = (working, &b.ty.ty);
    let values = (old, right);
    let result = update(alloc, env, state, token, ty, place, op, types, values)?;
    Ok(Some(result))
}

/// `++` or `--`.
#[cycle(direct)]
fn step<'a>(
    alloc: Global,
    env: &Env<'a>,
    state: &mut State,
    token: usize,
    op: StepOperator,
    a: &TExpr,
) -> Result<Option<Value>, Stop<'a>>
    requires { HasDirectPlace (view_expr a.now) }
    ensures { (bound : ℕ) (ty : types.QType) → Evaluates (view_env env.now) bound (tree.Node token ty (tree.Step op (view_expr a.now))) (view_state state.old) result (view_state state.new) }
{
    let place = place_of(alloc, env, state, a)?;
    let result = pw_interp_acts::step(alloc, env, state, token, op, &a.ty.ty, place)?;
    Ok(Some(result))
}

/// A conversion.
#[cycle(direct)]
fn converted<'a>(
    alloc: Global,
    env: &Env<'a>,
    state: &mut State,
    token: usize,
    a: &TExpr,
    ty: &QType,
) -> Result<Option<Value>, Stop<'a>>
    requires { IsDirect (view_expr a.now) }
    ensures { (bound : ℕ) → Evaluates (view_env env.now) bound (tree.Node token (view_qtype ty.now) (tree.Cast (view_expr a.now))) (view_state state.old) result (view_state state.new) }
{
    let answer = answer_of(alloc, env, state, a)?;
    cast(env, token, &ty.ty, answer)
}

/// The place of an lvalue as a result.
#[cycle(direct)]
fn placed<'a>(
    alloc: Global,
    env: &Env<'a>,
    state: &mut State,
    a: &TExpr,
) -> Result<Option<Value>, Stop<'a>>
    requires { HasDirectPlace (view_expr a.now) }
    ensures decays { (bound token : ℕ) (ty : types.QType) → Evaluates (view_env env.now) bound (tree.Node token ty (tree.Decay (view_expr a.now))) (view_state state.old) result (view_state state.new) }
    ensures addresses { (bound token : ℕ) (ty : types.QType) → Evaluates (view_env env.now) bound (tree.Node token ty (tree.Address (view_expr a.now))) (view_state state.old) result (view_state state.new) }
{
    let place = place_of(alloc, env, state, a)?;
    Ok(Some(place))
}

/// The place of a member.
#[cycle(direct)]
#[inline(never)]
fn member_place<'a>(
    alloc: Global,
    env: &Env<'a>,
    state: &mut State,
    token: usize,
    a: &TExpr,
    offset: u32,
) -> Result<Value, Stop<'a>>
    requires { HasDirectPlace (view_expr a.now) }
    ensures { (bound : ℕ) (ty : types.QType) → Locates (view_env env.now) bound (tree.Node token ty (tree.Member (view_expr a.now) offset)) (view_state state.old) result (view_state state.new) }
{
    let whole = place_of(alloc, env, state, a)?;
    advance(env, state, token, whole, offset)
}

/// The value of a member.
#[cycle(direct)]
#[inline(never)]
fn member<'a>(
    alloc: Global,
    env: &Env<'a>,
    state: &mut State,
    token: usize,
    a: &TExpr,
    ty: &QType,
    offset: u32,
) -> Result<Option<Value>, Stop<'a>>
    requires { HasDirectPlace (view_expr a.now) }
    ensures { (bound : ℕ) → Evaluates (view_env env.now) bound (tree.Node token (view_qtype ty.now) (tree.Member (view_expr a.now) offset)) (view_state state.old) result (view_state state.new) }
{
    let place = member_place(alloc, env, state, token, a, offset)?;
    value_at(env, state, token, ty, place)
}

/// The value of what a pointer points to.
#[cycle(direct)]
fn through<'a>(
    alloc: Global,
    env: &Env<'a>,
    state: &mut State,
    token: usize,
    a: &TExpr,
    ty: &QType,
) -> Result<Option<Value>, Stop<'a>>
    requires { IsDirect (view_expr a.now) }
    ensures { (bound : ℕ) → Evaluates (view_env env.now) bound (tree.Node token (view_qtype ty.now) (tree.Deref (view_expr a.now))) (view_state state.old) result (view_state state.new) }
{
    let place = operand(alloc, env, state, token, a)?;
    value_at(env, state, token, ty, place)
}
