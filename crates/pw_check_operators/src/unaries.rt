//! Operators on one operand (C90 6.3.3), and casts (C90 6.3.4).

ghost use Rattle.std.specs.Prelude.{◌≡◌, IfOk};
ghost use Rattle.pw_check_state.specs.Follows.{Follows};
ghost use Rattle.pw_check_state.specs.StateViews.{view_state};
ghost use Rattle.pw_check_state.specs.Views.{view_node, view_operand};
ghost use Rattle.pw_check_operators.specs.Promotions.{promoted_unary};
ghost use Rattle.pw_check_rules.specs.Operators as spec;
ghost use Rattle.pw_types.specs.Views.{view_qtype, view_type};

use crate::nodes::value;
use pw_check_operands::{can_step, fits_cast, is_modifiable, mixes_pointer, promote};
use pw_check_state::{Operand, State, boxed, fault, typing, value_operand};
use pw_check_types::{is_integral, is_scalar, plain, unqualified};
use pw_check_walk::{CheckFault, CheckKind};
use pw_token::Feature;
use pw_tree::UnaryOperator;
use pw_typed::{StepOperator, TExpr, TForm, UnaryOperator as TypedUnary};
use pw_types::{CType, IntKind, QType};
use std::alloc::{AllocError, Global};

/// The operator of a typed tree, `!` for those that it has not.
fn typed_unary(operator: UnaryOperator) -> TypedUnary
    ensures { result ≡ spec.typed_unary operator }
{
    match operator {
        UnaryOperator::Plus => TypedUnary::Plus,
        UnaryOperator::Minus => TypedUnary::Minus,
        UnaryOperator::Complement => TypedUnary::Complement,
        UnaryOperator::Not | UnaryOperator::Address | UnaryOperator::Dereference => TypedUnary::Not,
        UnaryOperator::Increment | UnaryOperator::Decrement => TypedUnary::Not,
        UnaryOperator::Sizeof => TypedUnary::Not,
    }
}

/// Whether the operator takes an operand of the type: `!` a scalar one, the others an arithmetic one.
fn fits_unary(operator: UnaryOperator, ty: &CType) -> bool
    ensures { result ≡ spec.fits_unary operator (view_type ty.now) }
{
    match operator {
        UnaryOperator::Not => is_scalar(ty),
        UnaryOperator::Plus | UnaryOperator::Minus | UnaryOperator::Complement => is_integral(ty),
        UnaryOperator::Address | UnaryOperator::Dereference => is_integral(ty),
        UnaryOperator::Increment | UnaryOperator::Decrement => is_integral(ty),
        UnaryOperator::Sizeof => is_integral(ty),
    }
}

/// The node of `!`, which converts nothing and gives an int.
#[tactic(auto, unfolding(pw_typed::specs::Views::view_form, pw_types::specs::Views::view_type))]
fn not_node(alloc: Global, token: usize, e: Box<TExpr>) -> Result<Box<TExpr>, AllocError>
    ensures { IfOk result (λ made. view_node made ≡ spec.unary_node token UnaryOperator.Not (view_node e)) }
{
    let form = TForm::Unary(TypedUnary::Not, e);
    boxed(alloc, token, plain(CType::Int(IntKind::Int)), form)
}

/// The node of an operator that promotes its operand.
#[tactic(auto, unfolding(pw_typed::specs::Views::view_form, pw_types::specs::Views::view_type))]
fn promoted_node(
    alloc: Global,
    token: usize,
    operator: TypedUnary,
    e: Box<TExpr>,
) -> Result<Box<TExpr>, AllocError>
    ensures { IfOk result (λ made. view_node made ≡ promoted_unary token operator (view_node e)) }
{
    let promoted = promote(alloc, e)?;
    let ty = unqualified(alloc, &promoted.ty)?;
    boxed(alloc, token, ty, TForm::Unary(operator, promoted))
}

/// The node of an operator on one operand; those beside `!` promote it.
fn unary_node(
    alloc: Global,
    token: usize,
    operator: UnaryOperator,
    e: Box<TExpr>,
) -> Result<Box<TExpr>, AllocError>
    ensures { IfOk result (λ made. view_node made ≡ spec.unary_node token operator (view_node e)) }
{
    let typed = typed_unary(operator);
    match operator {
        UnaryOperator::Not => not_node(alloc, token, e),
        UnaryOperator::Plus
        | UnaryOperator::Minus
        | UnaryOperator::Complement
        | UnaryOperator::Address
        | UnaryOperator::Dereference
        | UnaryOperator::Increment
        | UnaryOperator::Decrement
        | UnaryOperator::Sizeof => promoted_node(alloc, token, typed, e),
    }
}

/// `+`, `-`, `~` and `!` (C90 6.3.3.3).
#[tactic(auto, unfolding(pw_check_walk::specs::Walks::bind, pw_check_walk::specs::Walks::outcome, pw_check_rules::specs::Operators::sign_rule))]
pub fn sign_rule(
    alloc: Global,
    state: &State,
    token: usize,
    operator: UnaryOperator,
    e: Box<TExpr>,
) -> Result<Operand, CheckFault>
    ensures { Follows view_operand (spec.sign_rule token operator (view_node e)) (view_state state.now) result }
{
    if !fits_unary(operator, &e.ty.ty) {
        return Err(typing(token));
    }
    let node = unary_node(alloc, token, operator, e)?;
    Ok(value(node))
}

/// `++` and `--`, before their operand and behind it (C90 6.3.2.4, 6.3.3.1).
#[tactic(auto, unfolding(pw_check_walk::specs::Walks::bind, pw_check_walk::specs::Walks::outcome, pw_check_rules::specs::Operators::step_rule, pw_typed::specs::Views::view_form, pw_types::specs::Views::view_type))]
pub fn step_rule(
    alloc: Global,
    state: &State,
    token: usize,
    operator: StepOperator,
    a: Operand,
) -> Result<Operand, CheckFault>
    ensures { Follows view_operand (spec.step_rule token operator (view_operand a)) (view_state state.now) result }
{
    if !can_step(state.records(), &a.node.ty.ty) || !is_modifiable(state.records(), &a) {
        return Err(typing(token));
    }
    let ty = unqualified(alloc, &a.node.ty)?;
    Ok(value_operand(alloc, token, ty, TForm::Step(operator, a.node))?)
}

/// A cast (C90 6.3.4). What the standard leaves to an implementation, between pointers and numbers, is not supported.
#[tactic(auto, unfolding(pw_check_walk::specs::Walks::bind, pw_check_walk::specs::Walks::outcome, pw_check_rules::specs::Operators::cast_rule, pw_typed::specs::Views::view_form, pw_types::specs::Views::view_type))]
pub fn cast_rule(
    alloc: Global,
    state: &State,
    token: usize,
    q: QType,
    e: Box<TExpr>,
) -> Result<Operand, CheckFault>
    ensures { Follows view_operand (spec.cast_rule token (view_qtype q) (view_node e)) (view_state state.now) result }
{
    if !fits_cast(alloc, &q.ty, &e)? {
        return Err(typing(token));
    }
    if mixes_pointer(alloc, &q.ty, &e)? {
        return Err(fault(CheckKind::Unsupported(Feature::PointerCast), token));
    }
    Ok(value_operand(alloc, token, plain(q.ty), TForm::Cast(e))?)
}
