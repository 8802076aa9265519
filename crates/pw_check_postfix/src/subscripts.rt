//! Array subscripting (C90 6.3.2.1).

ghost use Rattle.pw_check_state.specs.Follows.{Follows};
ghost use Rattle.pw_check_state.specs.StateViews.{view_state};
ghost use Rattle.pw_check_state.specs.Views.{view_node, view_operand};
ghost use Rattle.pw_check_rules.specs.Operators as spec;

use pw_check_operands::pointer_and_number;
use pw_check_operators::{deref, sum_node};
use pw_check_state::{Operand, State, typing};
use pw_check_walk::CheckFault;
use pw_typed::TExpr;
use pw_types::BinaryOperator;
use std::alloc::Global;

/// `a[b]`, which is `*(a + b)` (C90 6.3.2.1).
#[tactic(auto, unfolding(pw_check_walk::specs::Walks::bind, pw_check_walk::specs::Walks::outcome, pw_check_rules::specs::Operators::index_rule))]
pub fn index_rule(
    alloc: Global,
    state: &State,
    token: usize,
    a: Box<TExpr>,
    b: Box<TExpr>,
) -> Result<Operand, CheckFault>
    ensures { Follows view_operand (spec.index_rule token (view_node a) (view_node b)) (view_state state.now) result }
{
    let types = state.records();
    let fits = pointer_and_number(types, &a, &b) || pointer_and_number(types, &b, &a);
    if !fits {
        return Err(typing(token));
    }
    let sum = sum_node(alloc, token, BinaryOperator::Add, a, b)?;
    Ok(deref(alloc, token, sum)?)
}
