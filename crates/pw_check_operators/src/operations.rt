//! Operators that group to the left (C90 6.3.5 to 6.3.14, 6.3.17).

ghost use Rattle.std.specs.Prelude.{◌≡◌, IfOk};
ghost use Rattle.pw_check_state.specs.Follows.{Follows};
ghost use Rattle.pw_check_state.specs.StateViews.{view_state};
ghost use Rattle.pw_check_state.specs.Views.{view_node, view_operand};
ghost use Rattle.pw_check_rules.specs.Operands as operands;
ghost use Rattle.pw_check_rules.specs.Operators as spec;

use crate::nodes::{binary_node, value};
use pw_check_operands::fits_binary;
use pw_check_state::{Operand, State, typing, value_operand};
use pw_check_types::{is_scalar, plain, unqualified};
use pw_check_walk::CheckFault;
use pw_tree::BinaryOperator;
use pw_typed::{LogicOperator, TExpr, TForm};
use pw_types::{CType, IntKind};
use std::alloc::{AllocError, Global};

/// A binary operator on values.
#[tactic(auto, unfolding(pw_check_walk::specs::Walks::bind, pw_check_walk::specs::Walks::outcome, pw_check_rules::specs::Operators::binary_rule))]
pub fn binary_rule(
    alloc: Global,
    state: &State,
    token: usize,
    operator: BinaryOperator,
    a: Box<TExpr>,
    b: Box<TExpr>,
) -> Result<Operand, CheckFault>
    ensures { Follows view_operand (spec.binary_rule token operator (view_node a) (view_node b)) (view_state state.now) result }
{
    if !fits_binary(alloc, state.records(), operator, &a, &b)? {
        return Err(typing(token));
    }
    let node = binary_node(alloc, token, operator, a, b)?;
    Ok(value(node))
}

/// `&&` and `||`, which convert nothing (C90 6.3.13, 6.3.14).
#[tactic(auto, unfolding(pw_check_walk::specs::Walks::bind, pw_check_walk::specs::Walks::outcome, pw_check_rules::specs::Operators::logic_rule, pw_typed::specs::Views::view_form, pw_types::specs::Views::view_type))]
pub fn logic_rule(
    alloc: Global,
    state: &State,
    token: usize,
    operator: LogicOperator,
    a: Box<TExpr>,
    b: Box<TExpr>,
) -> Result<Operand, CheckFault>
    ensures { Follows view_operand (spec.logic_rule token operator (view_node a) (view_node b)) (view_state state.now) result }
{
    if !is_scalar(&a.ty.ty) || !is_scalar(&b.ty.ty) {
        return Err(typing(token));
    }
    let form = TForm::Logic(operator, a, b);
    Ok(value_operand(alloc, token, plain(CType::Int(IntKind::Int)), form)?)
}

/// `,`, which gives its right operand (C90 6.3.17).
#[tactic(auto, unfolding(pw_typed::specs::Views::view_form, pw_types::specs::Views::view_type))]
fn comma(alloc: Global, token: usize, a: Box<TExpr>, b: Box<TExpr>) -> Result<Operand, AllocError>
    ensures { IfOk result (λ made. view_operand made ≡ operands.value_operand (spec.comma_node token (view_node a) (view_node b))) }
{
    let ty = unqualified(alloc, &b.ty)?;
    value_operand(alloc, token, ty, TForm::Comma(a, b))
}

/// An operator that groups to the left.
#[tactic(auto, unfolding(pw_check_walk::specs::Walks::outcome, pw_check_rules::specs::Operators::operation_rule))]
pub fn operation_rule(
    alloc: Global,
    state: &State,
    token: usize,
    operator: BinaryOperator,
    a: Box<TExpr>,
    b: Box<TExpr>,
) -> Result<Operand, CheckFault>
    ensures { Follows view_operand (spec.operation_rule token operator (view_node a) (view_node b)) (view_state state.now) result }
{
    match operator {
        BinaryOperator::And => logic_rule(alloc, state, token, LogicOperator::And, a, b),
        BinaryOperator::Or => logic_rule(alloc, state, token, LogicOperator::Or, a, b),
        BinaryOperator::Comma => Ok(comma(alloc, token, a, b)?),
        BinaryOperator::Multiply
        | BinaryOperator::Divide
        | BinaryOperator::Remainder
        | BinaryOperator::Add
        | BinaryOperator::Subtract
        | BinaryOperator::LeftShift
        | BinaryOperator::RightShift
        | BinaryOperator::Less
        | BinaryOperator::Greater
        | BinaryOperator::LessEqual
        | BinaryOperator::GreaterEqual
        | BinaryOperator::Equal
        | BinaryOperator::NotEqual
        | BinaryOperator::BitAnd
        | BinaryOperator::BitXor
        | BinaryOperator::BitOr => binary_rule(alloc, state, token, operator, a, b),
    }
}
