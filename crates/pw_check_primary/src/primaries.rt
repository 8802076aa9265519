//! Primary expressions (C90 6.3.1).

ghost use Rattle.pw_check_rules.specs.Phrases as spec;
ghost use Rattle.pw_check_state.specs.Follows.{Leads};
ghost use Rattle.pw_check_state.specs.StateViews.{view_state};
ghost use Rattle.pw_check_state.specs.Views.{view_operand};
ghost use Rattle.pw_tree.specs.Views.{view_expr};

use pw_check_leaves::{character_rule, identifier_rule, number_rule, string_rule};
use pw_check_state::{Operand, Phrases, State, fault};
use pw_check_walk::{CheckFault, CheckKind};
use pw_token::Feature;
use pw_tree::Expr;
use std::alloc::Global;

/// A primary expression (C90 6.3.1). An expression of another form is left to the rules of the phrases.
pub fn primary<'a, P: Phrases<'a>>(
    alloc: Global,
    phrases: &P,
    state: &mut State<'a>,
    expr: &'a Expr,
) -> Result<Operand, CheckFault>
    requires { P.can_check phrases.now }
    ensures { Leads view_operand (spec.expr_rule (view_expr expr.now)) (view_state state.old) result (view_state state.new) }
{
    match expr {
        Expr::Identifier(word) => identifier_rule(alloc, state, word),
        Expr::Number(word) => number_rule(alloc, state, word),
        Expr::Character(word) => character_rule(alloc, state, word),
        Expr::Strings(words) => string_rule(alloc, state, words),
        Expr::Floating(word) => Err(fault(CheckKind::Unsupported(Feature::Float), word.token)),
        Expr::Wide(word) => Err(fault(CheckKind::Unsupported(Feature::Wide), word.token)),
        Expr::Paren { inner, .. } => phrases.expr(alloc, state, inner),
        _ => phrases.expr(alloc, state, expr),
    }
}
