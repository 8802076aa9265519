//! Chains of operators (C90 6.3.5 to 6.3.14, 6.3.17), and what stands behind a primary expression (6.3.2).

ghost use Rattle.std.specs.Prelude.{◌≡◌};
ghost use Rattle.pw_check_rules.specs.Phrases as spec;
ghost use Rattle.pw_check_state.specs.Follows.{Follows, Leads};
ghost use Rattle.pw_check_state.specs.StateViews.{view_state};
ghost use Rattle.pw_check_state.specs.Views.{view_operand};
ghost use Rattle.pw_check_primary.specs.Turns as turns;
ghost use Rattle.pw_tree.specs.Trees.{NoPostfix, Select};
ghost use Rattle.pw_tree.specs.Views.{view_arguments, view_expr, view_operations, view_postfix, view_postfixes, view_word};

use pw_check_operators::{operation_rule, step_rule};
use pw_check_postfix::{arrow_rule, call_rule, dot_rule, index_rule};
use pw_check_state::{Operand, Phrases, State, value_rule, whole_rule};
use pw_check_walk::CheckFault;
use pw_tree::{
    Access, Expr, Operation, PostfixOperation, StepOperator, Word, expressions_show_their_lists,
};
use pw_typed::TExpr;
use std::alloc::Global;

/// An operator with the operand behind it.
fn operation<'a, P: Phrases<'a>>(
    alloc: Global,
    phrases: &P,
    state: &mut State<'a>,
    operation: &'a Operation,
    left: Operand,
) -> Result<Operand, CheckFault>
    requires { P.can_check phrases.now }
    ensures { Leads view_operand (turns.one_operation operation.now.token operation.now.operator (view_expr operation.now.operand) (view_operand left)) (view_state state.old) result (view_state state.new) }
{
    let a = value_rule(alloc, state, left)?;
    let b = whole_rule(alloc, phrases, state, &operation.operand)?;
    operation_rule(alloc, state, operation.token, operation.operator, a, b)
}

/// The operators of one level, from the left.
pub fn operations<'a, P: Phrases<'a>>(
    alloc: Global,
    phrases: &P,
    state: &mut State<'a>,
    rest: &'a [Operation],
    first: Operand,
) -> Result<Operand, CheckFault>
    requires { P.can_check phrases.now }
    ensures { Leads view_operand (spec.operations_rule (view_operations rest.now) (view_operand first)) (view_state state.old) result (view_state state.new) }
{
    let mut left = first;
    for next in rest {
        left = operation(alloc, phrases, state, next, left)?;
    }
    Ok(left)
}

/// An index (C90 6.3.2.1).
fn index<'a, P: Phrases<'a>>(
    alloc: Global,
    phrases: &P,
    state: &mut State<'a>,
    token: usize,
    index: &'a Expr,
    left: Operand,
) -> Result<Operand, CheckFault>
    requires { P.can_check phrases.now }
    ensures { Leads view_operand (turns.one_index token (view_expr index.now) (view_operand left)) (view_state state.old) result (view_state state.new) }
{
    let a = value_rule(alloc, state, left)?;
    let b = whole_rule(alloc, phrases, state, index)?;
    index_rule(alloc, state, token, a, b)
}

/// The values of arguments.
fn arguments<'a, P: Phrases<'a>>(
    alloc: Global,
    phrases: &P,
    state: &mut State<'a>,
    exprs: &'a [Expr],
) -> Result<Vec<TExpr>, CheckFault>
    requires { P.can_check phrases.now }
    ensures { Leads turns.view_values (spec.arguments_rule (view_arguments exprs.now)) (view_state state.old) result (view_state state.new) }
{
    let mut values = Vec::new(alloc);
    for e in exprs {
        let value = whole_rule(alloc, phrases, state, e)?;
        values.push(Box::into_inner(value))?;
    }
    Ok(values)
}

/// A call (C90 6.3.2.2).
fn call<'a, P: Phrases<'a>>(
    alloc: Global,
    phrases: &P,
    state: &mut State<'a>,
    token: usize,
    exprs: &'a [Expr],
    left: Operand,
) -> Result<Operand, CheckFault>
    requires { P.can_check phrases.now }
    ensures { Leads view_operand (turns.one_call token (view_arguments exprs.now) (view_operand left)) (view_state state.old) result (view_state state.new) }
{
    let callee = value_rule(alloc, state, left)?;
    let values = arguments(alloc, phrases, state, exprs)?;
    call_rule(alloc, state, token, callee, values)
}

/// A member of a structure or union, or of what a pointer points to (C90 6.3.2.3).
fn member(
    alloc: Global,
    state: &State,
    token: usize,
    access: Access,
    name: &Word,
    left: Operand,
) -> Result<Operand, CheckFault>
    ensures { Follows view_operand (turns.first_postfix (Select token access (view_word name.now) NoPostfix) (view_operand left)) (view_state state.now) result }
{
    match access {
        Access::Dot => dot_rule(alloc, state, token, name, left),
        Access::Arrow => {
            let pointer = value_rule(alloc, state, left)?;
            arrow_rule(alloc, state, token, name, pointer)
        }
    }
}

/// `++` or `--` behind its operand.
fn step_behind(operator: StepOperator) -> pw_types::StepOperator
    ensures { result ≡ turns.step_behind operator }
{
    match operator {
        StepOperator::Increment => pw_types::StepOperator::IncrementBehind,
        StepOperator::Decrement => pw_types::StepOperator::DecrementBehind,
    }
}

/// One of what stands behind a primary expression.
fn postfix<'a, P: Phrases<'a>>(
    alloc: Global,
    phrases: &P,
    state: &mut State<'a>,
    operation: &'a PostfixOperation,
    left: Operand,
) -> Result<Operand, CheckFault>
    requires { P.can_check phrases.now }
    ensures { Leads view_operand (turns.first_postfix (view_postfix operation.now NoPostfix) (view_operand left)) (view_state state.old) result (view_state state.new) }
{
    match operation {
        PostfixOperation::Index { token, index: e } => index(
            alloc, phrases, state, *token, e, left,
        ),
        PostfixOperation::Call { token, arguments } => {
            expressions_show_their_lists();
            call(alloc, phrases, state, *token, arguments, left)
        }
        PostfixOperation::Member {
            token,
            access,
            name,
        } => member(alloc, state, *token, *access, name, left),
        PostfixOperation::Step { token, operator } => step_rule(
            alloc,
            state,
            *token,
            step_behind(*operator),
            left,
        ),
    }
}

/// What stands behind a primary expression, from the left.
pub fn postfixes<'a, P: Phrases<'a>>(
    alloc: Global,
    phrases: &P,
    state: &mut State<'a>,
    rest: &'a [PostfixOperation],
    first: Operand,
) -> Result<Operand, CheckFault>
    requires { P.can_check phrases.now }
    ensures { Leads view_operand (spec.postfixes_rule (view_postfixes rest.now) (view_operand first)) (view_state state.old) result (view_state state.new) }
{
    let mut left = first;
    for next in rest {
        left = postfix(alloc, phrases, state, next, left)?;
    }
    Ok(left)
}
