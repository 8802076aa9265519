//! The rules of phrases within a larger one, which the rules of that take.

ghost use Rattle.std.specs.Prelude.{◌≡◌};
ghost use Rattle.pw_check_rules.specs.Declarations as declarations;
ghost use Rattle.pw_check_rules.specs.Phrases as spec;
ghost use Rattle.pw_check_rules.specs.Statements as statements;
ghost use Rattle.pw_check_state.specs.Follows.{Leads};
ghost use Rattle.pw_check_state.specs.PhraseViews.{view_declared, view_specified};
ghost use Rattle.pw_check_state.specs.StateViews.{view_state};
ghost use Rattle.pw_check_state.specs.Views.{view_node, view_operand};
ghost use Rattle.pw_tree.specs.Views.{view_declarator, view_expr, view_specifiers};

use crate::operand::Operand;
use crate::phrase::{Declared, Specified};
use crate::state::State;
use crate::values::value_rule;
use pw_check_walk::CheckFault;
use pw_tree::{Declarator, Expr, Specifier};
use pw_typed::TExpr;
use std::alloc::Global;

/// Checks expressions, lists of specifiers and declarators within a larger phrase.
pub trait Phrases<'a> {
    /// What has to be known of a value before it checks.
    ghost can_check: { Self → Type 0 };

    /// An expression (C90 6.3): its node, and what is known of it as an operand.
    fn expr(
        &self,
        alloc: Global,
        state: &mut State<'a>,
        expr: &'a Expr,
    ) -> Result<Operand, CheckFault>
        requires { can_check self.now }
        ensures { Leads view_operand (spec.expr_rule (view_expr expr.now)) (view_state state.old) result (view_state state.new) };

    /// A list of specifiers, by its first token.
    fn specifiers(
        &self,
        alloc: Global,
        state: &mut State<'a>,
        specifiers: &'a [Specifier],
        first: usize,
    ) -> Result<Specified, CheckFault>
        requires { can_check self.now }
        ensures { Leads view_specified (declarations.specified_rule (view_specifiers specifiers.now) first) (view_state state.old) result (view_state state.new) };

    /// A declarator (C90 6.5.4): the name that it declares, where there is one, and its steps outward.
    fn declarator(
        &self,
        alloc: Global,
        state: &mut State<'a>,
        declarator: &'a Declarator,
    ) -> Result<Declared<'a>, CheckFault>
        requires { can_check self.now }
        ensures { Leads view_declared (spec.declarator_rule (view_declarator declarator.now)) (view_state state.old) result (view_state state.new) };
}

/// An expression, and then its value.
pub fn whole_rule<'a, P: Phrases<'a>>(
    alloc: Global,
    phrases: &P,
    state: &mut State<'a>,
    expr: &'a Expr,
) -> Result<Box<TExpr>, CheckFault>
    requires { P.can_check phrases.now }
    ensures { Leads view_node (statements.whole_rule (view_expr expr.now)) (view_state state.old) result (view_state state.new) }
{
    let operand = phrases.expr(alloc, state, expr)?;
    value_rule(alloc, state, operand)
}
