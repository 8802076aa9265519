//! Expressions (C90 6.3).

ghost use Rattle.pw_check_rules.specs.Phrases as spec;
ghost use Rattle.pw_check_state.specs.Follows.{Leads};
ghost use Rattle.pw_check_state.specs.StateViews.{view_state};
ghost use Rattle.pw_check_state.specs.Views.{view_operand};
ghost use Rattle.pw_tree.specs.Trees as tree;
ghost use Rattle.pw_tree.specs.Views.{view_expr, view_operations, view_postfixes};

use crate::chains::{operations, postfixes};
use pw_check_operators::{assignment_rule, conditional_rule};
use pw_check_primary::{cast, primary, size_of_type, unary};
use pw_check_state::{Operand, Phrases, State, whole_rule};
use pw_check_walk::CheckFault;
use pw_tree::{AssignOperator, Expr, Operation, PostfixOperation, expressions_show_their_lists};
use std::alloc::Global;

/// An operand with what stands behind it.
fn postfixed<'a, P: Phrases<'a>>(
    alloc: Global,
    phrases: &P,
    state: &mut State<'a>,
    operand: &'a Expr,
    rest: &'a [PostfixOperation],
) -> Result<Operand, CheckFault>
    requires { P.can_check phrases.now }
    ensures { Leads view_operand (spec.expr_rule (tree.Postfix (view_expr operand.now) (view_postfixes rest.now))) (view_state state.old) result (view_state state.new) }
{
    let first = phrases.expr(alloc, state, operand)?;
    postfixes(alloc, phrases, state, rest, first)
}

/// Operands that operators of one level join.
fn chain<'a, P: Phrases<'a>>(
    alloc: Global,
    phrases: &P,
    state: &mut State<'a>,
    first: &'a Expr,
    rest: &'a [Operation],
) -> Result<Operand, CheckFault>
    requires { P.can_check phrases.now }
    ensures { Leads view_operand (spec.expr_rule (tree.Chain (view_expr first.now) (view_operations rest.now))) (view_state state.old) result (view_state state.new) }
{
    let left = phrases.expr(alloc, state, first)?;
    operations(alloc, phrases, state, rest, left)
}

/// A conditional (C90 6.3.15).
fn conditional<'a, P: Phrases<'a>>(
    alloc: Global,
    phrases: &P,
    state: &mut State<'a>,
    token: usize,
    condition: &'a Expr,
    chosen: &'a Expr,
    otherwise: &'a Expr,
) -> Result<Operand, CheckFault>
    requires { P.can_check phrases.now }
    ensures { Leads view_operand (spec.expr_rule (tree.Conditional token (view_expr condition.now) (view_expr chosen.now) (view_expr otherwise.now))) (view_state state.old) result (view_state state.new) }
{
    let u = whole_rule(alloc, phrases, state, condition)?;
    let v = whole_rule(alloc, phrases, state, chosen)?;
    let w = whole_rule(alloc, phrases, state, otherwise)?;
    conditional_rule(alloc, state, token, u, v, w)
}

/// An assignment (C90 6.3.16).
fn assignment<'a, P: Phrases<'a>>(
    alloc: Global,
    phrases: &P,
    state: &mut State<'a>,
    token: usize,
    operator: AssignOperator,
    left: &'a Expr,
    right: &'a Expr,
) -> Result<Operand, CheckFault>
    requires { P.can_check phrases.now }
    ensures { Leads view_operand (spec.expr_rule (tree.Assign token operator (view_expr left.now) (view_expr right.now))) (view_state state.old) result (view_state state.new) }
{
    let left = phrases.expr(alloc, state, left)?;
    let right = whole_rule(alloc, phrases, state, right)?;
    assignment_rule(alloc, state, token, operator, left, right)
}

/// An expression (C90 6.3), by the rules of the phrases within it.
#[tactic(auto, unfolding(pw_tree::specs::Views::view_expr))]
pub fn expr_of<'a, P: Phrases<'a>>(
    alloc: Global,
    phrases: &P,
    state: &mut State<'a>,
    expr: &'a Expr,
) -> Result<Operand, CheckFault>
    requires { P.can_check phrases.now }
    ensures { Leads view_operand (spec.expr_rule (view_expr expr.now)) (view_state state.old) result (view_state state.new) }
{
    expressions_show_their_lists();
    match expr {
        Expr::Postfix {
            operand,
            operations,
        } => postfixed(alloc, phrases, state, operand, operations),
        Expr::Unary {
            token,
            operator,
            operand,
        } => unary(alloc, phrases, state, *token, *operator, operand),
        Expr::SizeofType { token, named } => size_of_type(alloc, phrases, state, *token, named),
        Expr::Cast {
            token,
            named,
            operand,
        } => cast(alloc, phrases, state, *token, named, operand),
        Expr::Chain { first, rest } => chain(alloc, phrases, state, first, rest),
        Expr::Conditional {
            token,
            condition,
            chosen,
            otherwise,
        } => conditional(alloc, phrases, state, *token, condition, chosen, otherwise),
        Expr::Assign {
            token,
            operator,
            left,
            right,
        } => assignment(alloc, phrases, state, *token, *operator, left, right),
        _ => primary(alloc, phrases, state, expr),
    }
}
