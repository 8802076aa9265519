//! Assignments (C90 6.3.16).

ghost use Rattle.std.specs.Prelude.{◌≡◌, IfOk};
ghost use Rattle.pw_check_state.specs.Follows.{Follows};
ghost use Rattle.pw_check_state.specs.StateViews.{view_state};
ghost use Rattle.pw_check_state.specs.Views.{view_node, view_operand};
ghost use Rattle.pw_check_operators.specs.Compounds.{compound_operands, shift_operands, sum_operands};
ghost use Rattle.pw_check_rules.specs.Operators as spec;
ghost use Rattle.pw_typed.specs.Views.{view_expr};
ghost use Rattle.pw_types.specs.Views.{view_type};

use crate::nodes::{typed_binary, value};
use pw_check_operands::{
    cast_to, common_kind, convert, fits_compound, is_assignable, is_modifiable, promote, promotion,
};
use pw_check_state::{Operand, State, boxed, typing, value_operand};
use pw_check_types::{copy_type, is_pointer, unqualified};
use pw_check_walk::CheckFault;
use pw_tree::{AssignOperator, BinaryOperator};
use pw_typed::{TExpr, TForm};
use pw_types::CType;
use std::alloc::{AllocError, Global};

/// `=` (C90 6.3.16.1).
#[tactic(auto, unfolding(pw_check_walk::specs::Walks::bind, pw_check_walk::specs::Walks::outcome, pw_check_rules::specs::Operators::assign_rule, pw_typed::specs::Views::view_form, pw_types::specs::Views::view_type))]
pub fn assign_rule(
    alloc: Global,
    state: &State,
    token: usize,
    left: Operand,
    right: Box<TExpr>,
) -> Result<Operand, CheckFault>
    ensures { Follows view_operand (spec.assign_rule token (view_operand left) (view_node right)) (view_state state.now) result }
{
    if !is_modifiable(state.records(), &left) {
        return Err(typing(token));
    }
    if !is_assignable(alloc, &left.node.ty.ty, &right)? {
        return Err(typing(token));
    }
    let ty = unqualified(alloc, &left.node.ty)?;
    let right = cast_to(alloc, &ty.ty, right)?;
    Ok(value_operand(alloc, token, ty, TForm::Assign(left.node, right))?)
}

/// The operator of a compound assignment; `|` for `=`, which is none.
fn compound_operator(operator: AssignOperator) -> BinaryOperator
    ensures { result ≡ spec.compound_operator operator }
{
    match operator {
        AssignOperator::Multiply => BinaryOperator::Multiply,
        AssignOperator::Divide => BinaryOperator::Divide,
        AssignOperator::Remainder => BinaryOperator::Remainder,
        AssignOperator::Add => BinaryOperator::Add,
        AssignOperator::Subtract => BinaryOperator::Subtract,
        AssignOperator::LeftShift => BinaryOperator::LeftShift,
        AssignOperator::RightShift => BinaryOperator::RightShift,
        AssignOperator::BitAnd => BinaryOperator::BitAnd,
        AssignOperator::BitXor => BinaryOperator::BitXor,
        AssignOperator::BitOr | AssignOperator::Plain => BinaryOperator::BitOr,
    }
}

/// How a shift that assigns works: each operand is promoted by itself.
fn shifted_in(
    alloc: Global,
    left: &TExpr,
    right: Box<TExpr>,
) -> Result<(CType, Box<TExpr>), AllocError>
    ensures { IfOk result (λ worked. (view_type worked.0, view_node worked.1) ≡ shift_operands (view_expr left.now) (view_node right)) }
{
    let ty = promotion(alloc, left)?;
    Ok((ty, promote(alloc, right)?))
}

/// How another operator that assigns works: a pointer is moved by a number as it is, numbers have a common type.
#[tactic(auto, unfolding(pw_types::specs::Views::view_type))]
fn summed_in(
    alloc: Global,
    left: &TExpr,
    right: Box<TExpr>,
) -> Result<(CType, Box<TExpr>), AllocError>
    ensures { IfOk result (λ worked. (view_type worked.0, view_node worked.1) ≡ sum_operands (view_expr left.now) (view_node right)) }
{
    if is_pointer(&left.ty.ty) {
        return Ok((copy_type(alloc, &left.ty.ty)?, right));
    }
    let common = common_kind(left, &right);
    Ok((CType::Int(common), convert(alloc, common, right)?))
}

/// The type in which a compound assignment works, and its right operand in the type that it has there.
fn worked_in(
    alloc: Global,
    operator: BinaryOperator,
    left: &TExpr,
    right: Box<TExpr>,
) -> Result<(CType, Box<TExpr>), AllocError>
    ensures { IfOk result (λ worked. (view_type worked.0, view_node worked.1) ≡ compound_operands operator (view_expr left.now) (view_node right)) }
{
    match operator {
        BinaryOperator::LeftShift | BinaryOperator::RightShift => shifted_in(alloc, left, right),
        BinaryOperator::Multiply
        | BinaryOperator::Divide
        | BinaryOperator::Remainder
        | BinaryOperator::Add
        | BinaryOperator::Subtract
        | BinaryOperator::Less
        | BinaryOperator::Greater
        | BinaryOperator::LessEqual
        | BinaryOperator::GreaterEqual
        | BinaryOperator::Equal
        | BinaryOperator::NotEqual
        | BinaryOperator::BitAnd
        | BinaryOperator::BitXor
        | BinaryOperator::BitOr
        | BinaryOperator::And
        | BinaryOperator::Or
        | BinaryOperator::Comma => summed_in(alloc, left, right),
    }
}

/// The node of a compound assignment.
#[tactic(auto, unfolding(pw_typed::specs::Views::view_form), using(crate::proofs::CompoundLaws::compound_by))]
fn compound_node(
    alloc: Global,
    token: usize,
    operator: BinaryOperator,
    left: Box<TExpr>,
    right: Box<TExpr>,
) -> Result<Box<TExpr>, AllocError>
    ensures { IfOk result (λ made. view_node made ≡ spec.compound_node token operator (view_node left) (view_node right)) }
{
    let ty = unqualified(alloc, &left.ty)?;
    let (work, right) = worked_in(alloc, operator, &left, right)?;
    let form = TForm::Compound(typed_binary(operator), work, left, right);
    boxed(alloc, token, ty, form)
}

/// An operator with `=` (C90 6.3.16.2).
#[tactic(auto, unfolding(pw_check_walk::specs::Walks::bind, pw_check_walk::specs::Walks::outcome, pw_check_rules::specs::Operators::compound_rule))]
pub fn compound_rule(
    alloc: Global,
    state: &State,
    token: usize,
    operator: BinaryOperator,
    left: Operand,
    right: Box<TExpr>,
) -> Result<Operand, CheckFault>
    ensures { Follows view_operand (spec.compound_rule token operator (view_operand left) (view_node right)) (view_state state.now) result }
{
    if !is_modifiable(state.records(), &left) {
        return Err(typing(token));
    }
    if !fits_compound(state.records(), operator, &left.node.ty.ty, &right) {
        return Err(typing(token));
    }
    let node = compound_node(alloc, token, operator, left.node, right)?;
    Ok(value(node))
}

/// Checks an assignment, plain or compound (C90 6.3.16): its constraints, with the fault at the operator's token, and
/// its node, whose type is that of the left operand.
#[tactic(auto, unfolding(pw_check_rules::specs::Operators::assignment_rule))]
pub fn assignment_rule(
    alloc: Global,
    state: &State,
    token: usize,
    operator: AssignOperator,
    left: Operand,
    right: Box<TExpr>,
) -> Result<Operand, CheckFault>
    ensures { Follows view_operand (spec.assignment_rule token operator (view_operand left) (view_node right)) (view_state state.now) result }
{
    match operator {
        AssignOperator::Plain => assign_rule(alloc, state, token, left, right),
        AssignOperator::Multiply
        | AssignOperator::Divide
        | AssignOperator::Remainder
        | AssignOperator::Add
        | AssignOperator::Subtract
        | AssignOperator::LeftShift
        | AssignOperator::RightShift
        | AssignOperator::BitAnd
        | AssignOperator::BitXor
        | AssignOperator::BitOr => {
            let binary = compound_operator(operator);
            compound_rule(alloc, state, token, binary, left, right)
        }
    }
}
