//! What is left of an lvalue whose place is asked, behind what was evaluated first for it; of another structure or union
//! its value, which is a place.

ghost use Rattle.std.specs.Prelude.{◌≡◌, ℕ, Option, false, true};
ghost use Rattle.pw_value.specs.declared.value.Value as value;
ghost use Rattle.pw_typed.specs.Views.{view_expr, view_form};
ghost use Rattle.pw_types.specs.TypeTrees as types;
ghost use Rattle.pw_types.specs.TypedTrees as tree;
ghost use Rattle.pw_cmean.specs.Evaluation as meaning;
ghost use Rattle.pw_interp_state.specs.Shown.{Shown, view_state};
ghost use Rattle.pw_interp_calls.specs.Views.{view_env};
ghost use Rattle.pw_interp_todo.specs.Operands as spec;
ghost use Rattle.pw_interp_todo.specs.Steps.{StepsExpression};
ghost use Rattle.pw_interp_operands.specs.Groups as groups;

use pw_interp_acts::{advance, used};
use pw_interp_calls::{Ending, Env, Stop};
use pw_interp_state::State;
use pw_interp_todo::{Asked, Next, Operand, need, tested};
use pw_typed::{TExpr, TForm};
use pw_value::Value;

/// A member, behind the place of the whole.
fn member<'a>(
    env: &Env<'a>,
    state: &State,
    token: usize,
    offset: u32,
    given: Option<Value>,
) -> Result<Next<'a>, Stop<'a>>
    ensures { (ty : types.QType) (a : tree.Expression) → StepsExpression (view_env env.now) (spec.place_behind (tree.Node token ty (tree.Member a offset)) given) (view_state state.now) result (view_state state.now) }
{
    let whole = need(given)?;
    let place = advance(env, state, token, whole, offset)?;
    Ok(Next::Gave(Some(place)))
}

/// What a pointer points to, behind the pointer.
fn through<'a>(env: &Env<'a>, token: usize, given: Option<Value>) -> Result<Next<'a>, Stop<'a>>
    ensures { (w : Shown) (ty : types.QType) (a : tree.Expression) → StepsExpression (view_env env.now) (spec.place_behind (tree.Node token ty (tree.Deref a)) given) w result w }
{
    let place = used(env, token, given)?;
    Ok(Next::Gave(Some(place)))
}

/// `?:`, of which one operand's place is found.
fn cond<'a>(
    env: &Env<'a>,
    state: &State,
    token: usize,
    a: &'a TExpr,
    b: &'a TExpr,
    given: Option<Value>,
) -> Result<Next<'a>, Stop<'a>>
    ensures { (ty : types.QType) (c : tree.Expression) → StepsExpression (view_env env.now) (spec.place_behind (tree.Node token ty (tree.Cond c (view_expr a.now) (view_expr b.now))) given) (view_state state.now) result (view_state state.now) }
{
    let chosen = tested(env, state, token, given)?;
    if chosen {
        Ok(Next::Ask(Asked::Place(a)))
    } else {
        Ok(Next::Ask(Asked::Place(b)))
    }
}

/// `=` of structures or unions, whose right operand comes behind the place of the left one.
fn assign<'a>(
    env: &Env<'a>,
    e: &'a TExpr,
    b: &'a TExpr,
    given: Option<Value>,
) -> Result<Next<'a>, Stop<'a>>
    ensures { (w : Shown) (a : tree.Expression) → view_form e.now.form ≡ tree.Assign a (view_expr b.now)
        → StepsExpression (view_env env.now) (spec.place_behind (view_expr e.now) given) w result w }
{
    let place = need(given)?;
    Ok(Next::Behind(Asked::Answer(b), Operand::Assigned(Asked::Place(e), place)))
}

/// Whether the place of an expression is found behind that of an operand, or behind its value.
#[tactic(auto, unfolding(pw_typed::specs::Views::view_form), using(pw_typed::proofs::Rows::call_view, pw_typed::proofs::Rows::call_value_view))]
fn has_place_behind(e: &TExpr) -> bool
    ensures { result ≡ groups.has_place_behind (view_form e.now.form) }
{
    matches!(
        &e.form,
        TForm::Comma(_, _)
            | TForm::Member(_, _)
            | TForm::Deref(_)
            | TForm::Cond(_, _, _)
            | TForm::Assign(_, _)
    )
}

/// Behind nothing no accepted program goes on.
fn nothing<'a>() -> Result<Next<'a>, Stop<'a>>
    ensures { (e : meaning.Env) (token : ℕ) (ty : types.QType) (form : tree.Form) (given : Option value.Value) (w : Shown) → groups.has_place_behind form ≡ false
        → StepsExpression e (spec.place_behind (tree.Node token ty form) given) w result w }
{
    Err(Stop::Ended(Ending::Wrong))
}

/// What is left of an lvalue by its form.
#[tactic(auto, unfolding(pw_typed::specs::Views::view_form), using(pw_typed::proofs::Rows::call_view, pw_typed::proofs::Rows::call_value_view))]
fn by_form<'a>(
    env: &Env<'a>,
    state: &State,
    e: &'a TExpr,
    given: Option<Value>,
) -> Result<Next<'a>, Stop<'a>>
    requires { groups.has_place_behind (view_form e.now.form) ≡ true }
    ensures { StepsExpression (view_env env.now) (spec.place_behind (view_expr e.now) given) (view_state state.now) result (view_state state.now) }
{
    let token = e.token;
    match &e.form {
        TForm::Comma(_, b) => Ok(Next::Ask(Asked::Place(b))),
        TForm::Member(_, offset) => member(env, state, token, *offset, given),
        TForm::Deref(_) => through(env, token, given),
        TForm::Cond(_, a, b) => cond(env, state, token, a, b, given),
        TForm::Assign(_, b) => assign(env, e, b, given),
        _ => unreachable!(),
    }
}

/// What is left of an lvalue whose place is asked, behind what was evaluated first for it.
pub fn place_behind<'a>(
    env: &Env<'a>,
    state: &State,
    e: &'a TExpr,
    given: Option<Value>,
) -> Result<Next<'a>, Stop<'a>>
    ensures { StepsExpression (view_env env.now) (spec.place_behind (view_expr e.now) given) (view_state state.now) result (view_state state.now) }
{
    if has_place_behind(e) {
        by_form(env, state, e, given)
    } else {
        nothing()
    }
}
