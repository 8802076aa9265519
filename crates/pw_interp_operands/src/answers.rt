//! What is left of an expression whose result is asked, behind what was evaluated first for it.

ghost use Rattle.std.specs.Prelude.{◌≡◌, ℕ, None, Option, true};
ghost use Rattle.pw_value.specs.declared.value.Value as value;
ghost use Rattle.pw_typed.specs.Views.{view_expr, view_exprs, view_form};
ghost use Rattle.pw_types.specs.TypeTrees as types;
ghost use Rattle.pw_types.specs.TypedTrees as tree;
ghost use Rattle.pw_types.specs.Views.{view_qtype, view_type};
ghost use Rattle.pw_cmean.specs.Evaluation as meaning;
ghost use Rattle.pw_interp_state.specs.Shown.{Shown, view_state};
ghost use Rattle.pw_interp_calls.specs.Views.{view_env};
ghost use Rattle.pw_interp_todo.specs.Asking.{answer_first};
ghost use Rattle.pw_interp_todo.specs.Operands as spec;
ghost use Rattle.pw_interp_todo.specs.Steps.{StepsExpression};
ghost use Rattle.pw_interp_operands.specs.Groups.{is_at_place, is_on_values};
ghost use Rattle.pw_interp_operands.specs.Behind.{IsGroup};

use crate::last::word;
use pw_interp_acts::{advance, old_value, used, value_at};
use pw_interp_calls::{Ending, Env, Stop};
use pw_interp_state::State;
use pw_interp_todo::{Asked, Callee, Next, Operand, need, tested};
use pw_typed::{TExpr, TForm};
use pw_types::{CType, LogicOperator, QType, StepOperator, UnaryOperator};
use pw_value::Value;
use std::alloc::Global;

/// A unary operator.
fn unary<'a>(
    env: &Env<'a>,
    state: &State,
    token: usize,
    ty: &QType,
    op: UnaryOperator,
    given: Option<Value>,
) -> Result<Next<'a>, Stop<'a>>
    ensures { (a : tree.Expression) → StepsExpression (view_env env.now) (spec.answer_behind (tree.Node token (view_qtype ty.now) (tree.Unary op a)) given) (view_state state.now) result (view_state state.now) }
{
    let value = used(env, token, given)?;
    let result = pw_interp_acts::unary(env, state, token, op, &ty.ty, value)?;
    Ok(Next::Gave(Some(result)))
}

/// A binary operator: its right operand comes behind the left one.
fn binary<'a>(
    env: &Env<'a>,
    e: &'a TExpr,
    b: &'a TExpr,
    given: Option<Value>,
) -> Result<Next<'a>, Stop<'a>>
    ensures { (w : Shown) (op : _) (a : tree.Expression) → view_form e.now.form ≡ tree.Binary op a (view_expr b.now)
        → StepsExpression (view_env env.now) (spec.answer_behind (view_expr e.now) given) w result w }
{
    let left = used(env, e.token, given)?;
    Ok(Next::Behind(Asked::Answer(b), Operand::Right(e, left)))
}

/// Whether the first operand of `&&` or `||` decides (ISO C90 6.3.13, 6.3.14).
fn decides(op: LogicOperator, holds: bool) -> bool
    ensures { result ≡ meaning.decides op holds }
{
    match op {
        LogicOperator::And => !holds,
        LogicOperator::Or => holds,
    }
}

/// `&&` or `||`, whose second operand comes where the first does not decide.
fn logic<'a>(
    env: &Env<'a>,
    state: &State,
    e: &'a TExpr,
    op: LogicOperator,
    b: &'a TExpr,
    given: Option<Value>,
) -> Result<Next<'a>, Stop<'a>>
    ensures { (a : tree.Expression) → view_form e.now.form ≡ tree.Logic op a (view_expr b.now)
        → StepsExpression (view_env env.now) (spec.answer_behind (view_expr e.now) given) (view_state state.now) result (view_state state.now) }
{
    let first = tested(env, state, e.token, given)?;
    if decides(op, first) {
        return Ok(Next::Gave(Some(Value::Num(word(first)))));
    }
    Ok(Next::Behind(Asked::Answer(b), Operand::Second(e)))
}

/// `?:`, of which one operand is evaluated.
fn cond<'a>(
    env: &Env<'a>,
    state: &State,
    token: usize,
    ty: &QType,
    a: &'a TExpr,
    b: &'a TExpr,
    given: Option<Value>,
) -> Result<Next<'a>, Stop<'a>>
    ensures { (c : tree.Expression) → StepsExpression (view_env env.now) (spec.answer_behind (tree.Node token (view_qtype ty.now) (tree.Cond c (view_expr a.now) (view_expr b.now))) given) (view_state state.now) result (view_state state.now) }
{
    let chosen = tested(env, state, token, given)?;
    if chosen {
        Ok(Next::Ask(Asked::Answer(a)))
    } else {
        Ok(Next::Ask(Asked::Answer(b)))
    }
}

/// `=`, whose right operand comes behind the place of the left one.
fn assign<'a>(
    env: &Env<'a>,
    e: &'a TExpr,
    b: &'a TExpr,
    given: Option<Value>,
) -> Result<Next<'a>, Stop<'a>>
    ensures { (w : Shown) (a : tree.Expression) → view_form e.now.form ≡ tree.Assign a (view_expr b.now)
        → StepsExpression (view_env env.now) (spec.answer_behind (view_expr e.now) given) w result w }
{
    let place = need(given)?;
    Ok(Next::Behind(Asked::Answer(b), Operand::Assigned(Asked::Answer(e), place)))
}

/// An operator with `=`, which works in a type. The old value is read before the right operand is evaluated.
fn compound<'a>(
    env: &Env<'a>,
    state: &State,
    e: &'a TExpr,
    working: &CType,
    a: &'a TExpr,
    b: &'a TExpr,
    given: Option<Value>,
) -> Result<Next<'a>, Stop<'a>>
    ensures { (op : _) → view_form e.now.form ≡ tree.Compound op (view_type working.now) (view_expr a.now) (view_expr b.now)
        → StepsExpression (view_env env.now) (spec.answer_behind (view_expr e.now) given) (view_state state.now) result (view_state state.now) }
{
    let place = need(given)?;
    let old = old_value(env, state, e.token, &a.ty.ty, working, place)?;
    Ok(Next::Behind(Asked::Answer(b), Operand::Updated(e, place, old)))
}

/// `++` and `--`.
fn step<'a>(
    alloc: Global,
    env: &Env<'a>,
    state: &mut State,
    token: usize,
    ty: &QType,
    op: StepOperator,
    a: &TExpr,
    given: Option<Value>,
) -> Result<Next<'a>, Stop<'a>>
    ensures { StepsExpression (view_env env.now) (spec.answer_behind (tree.Node token (view_qtype ty.now) (tree.Step op (view_expr a.now))) given) (view_state state.old) result (view_state state.new) }
{
    let place = need(given)?;
    let result = pw_interp_acts::step(alloc, env, state, token, op, &a.ty.ty, place)?;
    Ok(Next::Gave(Some(result)))
}

/// A conversion.
fn cast<'a>(
    env: &Env<'a>,
    token: usize,
    ty: &QType,
    given: Option<Value>,
) -> Result<Next<'a>, Stop<'a>>
    ensures { (w : Shown) (a : tree.Expression) → StepsExpression (view_env env.now) (spec.answer_behind (tree.Node token (view_qtype ty.now) (tree.Cast a)) given) w result w }
{
    let result = pw_interp_acts::cast(env, token, &ty.ty, given)?;
    Ok(Next::Gave(result))
}

/// A member, behind the place of the whole.
fn member<'a>(
    env: &Env<'a>,
    state: &State,
    token: usize,
    ty: &QType,
    offset: u32,
    given: Option<Value>,
) -> Result<Next<'a>, Stop<'a>>
    ensures { (a : tree.Expression) → StepsExpression (view_env env.now) (spec.answer_behind (tree.Node token (view_qtype ty.now) (tree.Member a offset)) given) (view_state state.now) result (view_state state.now) }
{
    let whole = need(given)?;
    let place = advance(env, state, token, whole, offset)?;
    let value = value_at(env, state, token, ty, place)?;
    Ok(Next::Gave(value))
}

/// What a pointer points to, behind the pointer.
fn through<'a>(
    env: &Env<'a>,
    state: &State,
    token: usize,
    ty: &QType,
    given: Option<Value>,
) -> Result<Next<'a>, Stop<'a>>
    ensures { (a : tree.Expression) → StepsExpression (view_env env.now) (spec.answer_behind (tree.Node token (view_qtype ty.now) (tree.Deref a)) given) (view_state state.now) result (view_state state.now) }
{
    let place = used(env, token, given)?;
    let value = value_at(env, state, token, ty, place)?;
    Ok(Next::Gave(value))
}

/// A call through a value: its arguments come behind the value.
fn call_value<'a>(
    env: &Env<'a>,
    token: usize,
    ty: &QType,
    a: &'a TExpr,
    args: &'a [TExpr],
    given: Option<Value>,
) -> Result<Next<'a>, Stop<'a>>
    ensures { (w : Shown) → StepsExpression (view_env env.now) (spec.answer_behind (tree.Node token (view_qtype ty.now) (tree.CallValue (view_expr a.now) (view_exprs args.now))) given) w result w }
{
    let callee = used(env, token, given)?;
    Ok(Next::Arguments(args, token, Callee::Through(token, &a.ty.ty, callee)))
}

/// The same, of an operator on values.
#[tactic(auto, unfolding(pw_typed::specs::Views::view_form), using(pw_typed::proofs::Rows::call_view, pw_typed::proofs::Rows::call_value_view))]
fn on_values<'a>(
    env: &Env<'a>,
    state: &State,
    e: &'a TExpr,
    given: Option<Value>,
) -> Result<Next<'a>, Stop<'a>>
    requires { is_on_values (view_form e.now.form) ≡ true }
    ensures { StepsExpression (view_env env.now) (spec.answer_behind (view_expr e.now) given) (view_state state.now) result (view_state state.now) }
{
    let token = e.token;
    match &e.form {
        TForm::Unary(op, _) => unary(env, state, token, &e.ty, *op, given),
        TForm::Binary(_, _, b) => binary(env, e, b, given),
        TForm::Logic(op, _, b) => logic(env, state, e, *op, b, given),
        TForm::Cond(_, a, b) => cond(env, state, token, &e.ty, a, b, given),
        TForm::Comma(_, b) => Ok(Next::Ask(Asked::Answer(b))),
        TForm::Cast(_) => cast(env, token, &e.ty, given),
        TForm::Deref(_) => through(env, state, token, &e.ty, given),
        TForm::CallValue(a, args) => call_value(env, token, &e.ty, a, args, given),
        _ => unreachable!(),
    }
}

/// The same, of an operator at a place.
#[tactic(auto, unfolding(pw_typed::specs::Views::view_form), using(pw_typed::proofs::Rows::call_view, pw_typed::proofs::Rows::call_value_view))]
fn at_place<'a>(
    alloc: Global,
    env: &Env<'a>,
    state: &mut State,
    e: &'a TExpr,
    given: Option<Value>,
) -> Result<Next<'a>, Stop<'a>>
    requires { is_at_place (view_form e.now.form) ≡ true }
    ensures { StepsExpression (view_env env.now) (spec.answer_behind (view_expr e.now) given) (view_state state.old) result (view_state state.new) }
{
    let token = e.token;
    match &e.form {
        TForm::Assign(_, b) => assign(env, e, b, given),
        TForm::Compound(_, working, a, b) => compound(env, state, e, working, a, b, given),
        TForm::Step(op, a) => step(alloc, env, state, token, &e.ty, *op, a, given),
        TForm::Member(_, offset) => member(env, state, token, &e.ty, *offset, given),
        _ => unreachable!(),
    }
}

/// Behind what expressions of a form go on.
#[derive(Clone, Copy)]
enum Group {
    /// The value of the first operand.
    Value,
    /// Its place.
    Place,
    /// Nothing: none is evaluated first.
    Nothing,
}

/// Behind what an expression goes on.
#[tactic(auto, unfolding(pw_typed::specs::Views::view_form), using(pw_typed::proofs::Rows::call_view, pw_typed::proofs::Rows::call_value_view))]
fn group_of(e: &TExpr) -> Group
    ensures { IsGroup (view_form e.now.form) result }
{
    match &e.form {
        TForm::Unary(_, _) | TForm::Binary(_, _, _) | TForm::Logic(_, _, _) => Group::Value,
        TForm::Cond(_, _, _) | TForm::Comma(_, _) | TForm::Cast(_) => Group::Value,
        TForm::Deref(_) | TForm::CallValue(_, _) => Group::Value,
        TForm::Assign(_, _) | TForm::Compound(_, _, _, _) => Group::Place,
        TForm::Step(_, _) | TForm::Member(_, _) => Group::Place,
        TForm::Number(_) | TForm::Str(_) | TForm::Local(_) => Group::Nothing,
        TForm::Global(_) | TForm::Function(_) | TForm::Call(_, _) => Group::Nothing,
        TForm::Decay(_) | TForm::Address(_) => Group::Nothing,
    }
}

/// Behind nothing no accepted program goes on.
fn nothing<'a>() -> Result<Next<'a>, Stop<'a>>
    ensures { (e : meaning.Env) (token : ℕ) (ty : types.QType) (form : tree.Form) (given : Option value.Value) (w : Shown) → answer_first form ≡ None
        → StepsExpression e (spec.answer_behind (tree.Node token ty form) given) w result w }
{
    Err(Stop::Ended(Ending::Wrong))
}

/// What is left of an expression whose result is asked, behind what was evaluated first for it.
pub fn answer_behind<'a>(
    alloc: Global,
    env: &Env<'a>,
    state: &mut State,
    e: &'a TExpr,
    given: Option<Value>,
) -> Result<Next<'a>, Stop<'a>>
    ensures { StepsExpression (view_env env.now) (spec.answer_behind (view_expr e.now) given) (view_state state.old) result (view_state state.new) }
{
    match group_of(e) {
        Group::Value => on_values(env, state, e, given),
        Group::Place => at_place(alloc, env, state, e, given),
        Group::Nothing => nothing(),
    }
}
