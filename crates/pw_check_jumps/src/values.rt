//! The expressions in statements: conditions, values of switches, and those that may be left out.

ghost use Rattle.std.specs.Prelude.{◌≡◌};
ghost use Rattle.pw_check_rules.specs.Statements as spec;
ghost use Rattle.pw_check_state.specs.Follows.{Leads};
ghost use Rattle.pw_check_state.specs.StateViews.{view_state};
ghost use Rattle.pw_check_state.specs.Views.{view_node};
ghost use Rattle.pw_check_jumps.specs.Views.{view_held};
ghost use Rattle.pw_tree.specs.Views.{view_expr, view_optional};

use pw_check_labels::BodyParts;
use pw_check_operands::promote;
use pw_check_state::{State, typing};
use pw_check_types::{is_integral, is_scalar};
use pw_check_walk::CheckFault;
use pw_tree::Expr;
use pw_typed::TExpr;
use std::alloc::Global;

/// An expression that may be left out, in a box.
pub fn optional_rule<'a, P: BodyParts<'a>>(
    alloc: Global,
    parts: &P,
    state: &mut State<'a>,
    expr: &'a Option<Expr>,
) -> Result<Option<Box<TExpr>>, CheckFault>
    requires { P.can_check parts.now }
    ensures { Leads view_held (spec.optional_rule (view_optional expr.now)) (view_state state.old) result (view_state state.new) }
{
    match expr {
        Some(e) => {
            let made = parts.whole(alloc, state, e)?;
            Ok(Some(made))
        }
        None => Ok(None),
    }
}

/// A condition is a scalar, of the statement that begins here (C90 6.6.4.1, 6.6.5).
pub fn condition_rule<'a, P: BodyParts<'a>>(
    alloc: Global,
    parts: &P,
    state: &mut State<'a>,
    token: usize,
    expr: &'a Expr,
) -> Result<Box<TExpr>, CheckFault>
    requires { P.can_check parts.now }
    ensures { Leads view_node (spec.condition_rule token (view_expr expr.now)) (view_state state.old) result (view_state state.new) }
{
    let condition = parts.whole(alloc, state, expr)?;
    if !is_scalar(&condition.ty.ty) {
        return Err(typing(token));
    }
    Ok(condition)
}

/// Whether a condition is a scalar, where there is one.
fn is_condition(condition: &Option<Box<TExpr>>) -> bool
    ensures { result ≡ spec.is_condition (view_held condition.now) }
{
    match condition {
        Some(e) => is_scalar(&e.ty.ty),
        None => true,
    }
}

/// A condition that may be left out (C90 6.6.5.3).
pub fn optional_condition<'a, P: BodyParts<'a>>(
    alloc: Global,
    parts: &P,
    state: &mut State<'a>,
    token: usize,
    expr: &'a Option<Expr>,
) -> Result<Option<Box<TExpr>>, CheckFault>
    requires { P.can_check parts.now }
    ensures { Leads view_held (spec.optional_condition token (view_optional expr.now)) (view_state state.old) result (view_state state.new) }
{
    let condition = optional_rule(alloc, parts, state, expr)?;
    if !is_condition(&condition) {
        return Err(typing(token));
    }
    Ok(condition)
}

/// The value of a switch is an integer, and promoted (C90 6.6.4.2).
pub fn switch_rule<'a, P: BodyParts<'a>>(
    alloc: Global,
    parts: &P,
    state: &mut State<'a>,
    token: usize,
    expr: &'a Expr,
) -> Result<Box<TExpr>, CheckFault>
    requires { P.can_check parts.now }
    ensures { Leads view_node (spec.switch_rule token (view_expr expr.now)) (view_state state.old) result (view_state state.new) }
{
    let value = parts.whole(alloc, state, expr)?;
    if !is_integral(&value.ty.ty) {
        return Err(typing(token));
    }
    Ok(promote(alloc, value)?)
}
