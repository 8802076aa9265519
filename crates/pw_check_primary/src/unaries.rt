//! Operators before their operand (C90 6.3.3).

ghost use Rattle.pw_check_rules.specs.Phrases as spec;
ghost use Rattle.pw_check_state.specs.Follows.{Leads};
ghost use Rattle.pw_check_state.specs.StateViews.{view_state};
ghost use Rattle.pw_check_state.specs.Views.{view_operand};
ghost use Rattle.pw_check_primary.specs.Turns.{sign_of, step_before_of};
ghost use Rattle.pw_check_rules.specs.States.{uncounted};
ghost use Rattle.pw_tree.specs.declared.operator.UnaryOperator.TheVariants.{Address, Dereference, Sizeof};
ghost use Rattle.pw_tree.specs.Trees as tree;
ghost use Rattle.pw_tree.specs.Views.{view_expr};

use pw_check_operators::{address_rule, deref_rule, sign_rule, size_rule, step_rule};
use pw_check_state::{Operand, Phrases, State, whole_rule};
use pw_check_walk::CheckFault;
use pw_tree::{Expr, UnaryOperator};
use pw_types::StepOperator;
use std::alloc::Global;

/// An operand of `sizeof`, in which a string is no object (C90 6.3.3.4).
fn uncounted_operand<'a, P: Phrases<'a>>(
    alloc: Global,
    phrases: &P,
    state: &mut State<'a>,
    operand: &'a Expr,
) -> Result<Operand, CheckFault>
    requires { P.can_check phrases.now }
    ensures { Leads view_operand (uncounted (spec.expr_rule (view_expr operand.now))) (view_state state.old) result (view_state state.new) }
{
    let before = state.is_counting();
    state.set_counting(false);
    let a = phrases.expr(alloc, state, operand)?;
    state.set_counting(before);
    Ok(a)
}

/// `++` or `--` before its operand.
fn step_before<'a, P: Phrases<'a>>(
    alloc: Global,
    phrases: &P,
    state: &mut State<'a>,
    token: usize,
    operator: StepOperator,
    operand: &'a Expr,
) -> Result<Operand, CheckFault>
    requires { P.can_check phrases.now }
    ensures { Leads view_operand (step_before_of token operator (view_expr operand.now)) (view_state state.old) result (view_state state.new) }
{
    let a = phrases.expr(alloc, state, operand)?;
    step_rule(alloc, state, token, operator, a)
}

/// `&`
fn address<'a, P: Phrases<'a>>(
    alloc: Global,
    phrases: &P,
    state: &mut State<'a>,
    token: usize,
    operand: &'a Expr,
) -> Result<Operand, CheckFault>
    requires { P.can_check phrases.now }
    ensures { Leads view_operand (spec.expr_rule (tree.Unary token Address (view_expr operand.now))) (view_state state.old) result (view_state state.new) }
{
    let a = phrases.expr(alloc, state, operand)?;
    address_rule(alloc, state, token, a)
}

/// `*`
fn dereference<'a, P: Phrases<'a>>(
    alloc: Global,
    phrases: &P,
    state: &mut State<'a>,
    token: usize,
    operand: &'a Expr,
) -> Result<Operand, CheckFault>
    requires { P.can_check phrases.now }
    ensures { Leads view_operand (spec.expr_rule (tree.Unary token Dereference (view_expr operand.now))) (view_state state.old) result (view_state state.new) }
{
    let value = whole_rule(alloc, phrases, state, operand)?;
    deref_rule(alloc, state, token, value)
}

/// `+`, `-`, `~` or `!`
fn sign<'a, P: Phrases<'a>>(
    alloc: Global,
    phrases: &P,
    state: &mut State<'a>,
    token: usize,
    operator: UnaryOperator,
    operand: &'a Expr,
) -> Result<Operand, CheckFault>
    requires { P.can_check phrases.now }
    ensures { Leads view_operand (sign_of token operator (view_expr operand.now)) (view_state state.old) result (view_state state.new) }
{
    let value = whole_rule(alloc, phrases, state, operand)?;
    sign_rule(alloc, state, token, operator, value)
}

/// `sizeof` with an expression.
fn size<'a, P: Phrases<'a>>(
    alloc: Global,
    phrases: &P,
    state: &mut State<'a>,
    token: usize,
    operand: &'a Expr,
) -> Result<Operand, CheckFault>
    requires { P.can_check phrases.now }
    ensures { Leads view_operand (spec.expr_rule (tree.Unary token Sizeof (view_expr operand.now))) (view_state state.old) result (view_state state.new) }
{
    let a = uncounted_operand(alloc, phrases, state, operand)?;
    size_rule(alloc, state, token, a)
}

/// An operator before its operand.
pub fn unary<'a, P: Phrases<'a>>(
    alloc: Global,
    phrases: &P,
    state: &mut State<'a>,
    token: usize,
    operator: UnaryOperator,
    operand: &'a Expr,
) -> Result<Operand, CheckFault>
    requires { P.can_check phrases.now }
    ensures { Leads view_operand (spec.expr_rule (tree.Unary token operator (view_expr operand.now))) (view_state state.old) result (view_state state.new) }
{
    match operator {
        UnaryOperator::Sizeof => size(alloc, phrases, state, token, operand),
        UnaryOperator::Address => address(alloc, phrases, state, token, operand),
        UnaryOperator::Dereference => dereference(alloc, phrases, state, token, operand),
        UnaryOperator::Increment => {
            let step = StepOperator::IncrementBefore;
            step_before(alloc, phrases, state, token, step, operand)
        }
        UnaryOperator::Decrement => {
            let step = StepOperator::DecrementBefore;
            step_before(alloc, phrases, state, token, step, operand)
        }
        UnaryOperator::Plus
        | UnaryOperator::Minus
        | UnaryOperator::Complement
        | UnaryOperator::Not => sign(alloc, phrases, state, token, operator, operand),
    }
}
