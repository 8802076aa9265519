//! Statements that choose (C90 6.6.4): `if` and `switch`, written for any parts.

ghost use Rattle.pw_check_rules.specs.Statements as spec;
ghost use Rattle.pw_check_choice.specs.Parts as part;
ghost use Rattle.pw_check_choice.specs.Views.{view_arm, view_arm_list, view_behind, view_body, view_switched};
ghost use Rattle.pw_check_state.specs.Follows.{Leads};
ghost use Rattle.pw_check_state.specs.StateViews.{view_state};
ghost use Rattle.pw_tree.specs.Trees as tree;
ghost use Rattle.pw_tree.specs.Views.{view_else_ifs, view_expr, view_otherwise, view_stmt};
ghost use Rattle.pw_typed.specs.Views as typed;

use pw_check_jumps::{condition_rule, switch_rule};
use pw_check_labels::BodyParts;
use pw_check_state::{State, SwitchState};
use pw_check_types::kind_in;
use pw_check_walk::CheckFault;
use pw_tree::{ElseIf, Expr, Stmt};
use pw_typed::{Arm, TExpr, TStmt, TStmtForm};
use std::alloc::Global;

/// The body of a switch, and what is known of the switch behind it.
#[derive(Drop)]
pub(crate) struct Switched {
    pub(crate) body: Box<TStmt>,
    pub(crate) switch: SwitchState,
}

/// The arms of an `if`, and what stands behind a last `else`.
#[derive(Drop)]
pub(crate) struct Behind {
    pub(crate) arms: Vec<Arm>,
    pub(crate) otherwise: Option<Box<TStmt>>,
}

/// Checks a statement (C90 6.6), and answers its typed tree, in a box.
pub fn boxed_stmt<'a, P: BodyParts<'a>>(
    alloc: Global,
    parts: &P,
    state: &mut State<'a>,
    stmt: &'a Stmt,
) -> Result<Box<TStmt>, CheckFault>
    requires { P.can_check parts.now }
    ensures { Leads view_body (spec.stmt_rule (view_stmt stmt.now)) (view_state state.old) result (view_state state.new) }
{
    let made = parts.stmt(alloc, state, stmt)?;
    Ok(Box::new(alloc, made)?)
}

/// An arm of an `if`: its condition and its statement.
fn arm_rule<'a, P: BodyParts<'a>>(
    alloc: Global,
    parts: &P,
    state: &mut State<'a>,
    token: usize,
    condition: &'a Expr,
    chosen: &'a Stmt,
) -> Result<Arm, CheckFault>
    requires { P.can_check parts.now }
    ensures { Leads view_arm (part.arm_rule token (view_expr condition.now) (view_stmt chosen.now)) (view_state state.old) result (view_state state.new) }
{
    let condition = condition_rule(alloc, parts, state, token, condition)?;
    let body = parts.stmt(alloc, state, chosen)?;
    Ok(Arm {
        token,
        condition: Box::into_inner(condition),
        body,
    })
}

/// What stands behind a last `else`.
fn otherwise_rule<'a, P: BodyParts<'a>>(
    alloc: Global,
    parts: &P,
    state: &mut State<'a>,
    arms: Vec<Arm>,
    otherwise: &'a Option<Box<Stmt>>,
) -> Result<Behind, CheckFault>
    requires { P.can_check parts.now }
    ensures { Leads view_behind (part.alternative_after (view_arm_list arms.items) (view_otherwise otherwise.now)) (view_state state.old) result (view_state state.new) }
{
    match otherwise {
        Some(last) => {
            let body = boxed_stmt(alloc, parts, state, last)?;
            Ok(Behind {
                arms,
                otherwise: Some(body),
            })
        }
        None => Ok(Behind {
            arms,
            otherwise: None,
        }),
    }
}

/// Each `else if` and the last `else`, with the arms before them.
fn alternative_rule<'a, P: BodyParts<'a>>(
    alloc: Global,
    parts: &P,
    state: &mut State<'a>,
    before: Vec<Arm>,
    else_ifs: &'a [ElseIf],
    otherwise: &'a Option<Box<Stmt>>,
) -> Result<Behind, CheckFault>
    requires { P.can_check parts.now }
    ensures { Leads view_behind (part.alternative_after (view_arm_list before.items) (view_else_ifs else_ifs.now (view_otherwise otherwise.now))) (view_state state.old) result (view_state state.new) }
{
    let mut arms = before;
    for next in else_ifs {
        let arm = arm_rule(
            alloc,
            parts,
            state,
            next.token,
            &next.condition,
            &next.chosen,
        )?;
        arms.push(arm)?;
    }
    otherwise_rule(alloc, parts, state, arms, otherwise)
}

/// An `if` with what stands behind it (C90 6.6.4.1).
pub fn if_stmt<'a, P: BodyParts<'a>>(
    alloc: Global,
    parts: &P,
    state: &mut State<'a>,
    token: usize,
    condition: &'a Expr,
    chosen: &'a Stmt,
    else_ifs: &'a [ElseIf],
    otherwise: &'a Option<Box<Stmt>>,
) -> Result<TStmt, CheckFault>
    requires { P.can_check parts.now }
    ensures { Leads typed.view_stmt (spec.stmt_rule (tree.If token (view_expr condition.now) (view_stmt chosen.now) (view_else_ifs else_ifs.now (view_otherwise otherwise.now)))) (view_state state.old) result (view_state state.new) }
{
    let first = arm_rule(alloc, parts, state, token, condition, chosen)?;
    let mut arms = Vec::new(alloc);
    arms.push(first)?;
    let behind = alternative_rule(alloc, parts, state, arms, else_ifs, otherwise)?;
    let Behind { arms, otherwise } = behind;
    Ok(TStmt {
        token,
        form: TStmtForm::If(arms, otherwise),
    })
}

/// The body of a switch over this value.
fn in_switch<'a, P: BodyParts<'a>>(
    alloc: Global,
    parts: &P,
    state: &mut State<'a>,
    value: &TExpr,
    body: &'a Stmt,
) -> Result<Switched, CheckFault>
    requires { P.can_check parts.now }
    ensures { Leads view_switched (spec.in_switch (typed.view_expr value.now) (spec.stmt_rule (view_stmt body.now))) (view_state state.old) result (view_state state.new) }
{
    state.enter_switch(alloc, kind_in(&value.ty.ty))?;
    let body = boxed_stmt(alloc, parts, state, body)?;
    let switch = state.leave_switch(alloc);
    Ok(Switched { body, switch })
}

/// A `switch` (C90 6.6.4.2).
pub fn switch_stmt<'a, P: BodyParts<'a>>(
    alloc: Global,
    parts: &P,
    state: &mut State<'a>,
    token: usize,
    value: &'a Expr,
    body: &'a Stmt,
) -> Result<TStmt, CheckFault>
    requires { P.can_check parts.now }
    ensures { Leads typed.view_stmt (spec.stmt_rule (tree.Switch token (view_expr value.now) (view_stmt body.now))) (view_state state.old) result (view_state state.new) }
{
    let value = switch_rule(alloc, parts, state, token, value)?;
    let switched = in_switch(alloc, parts, state, &value, body)?;
    let Switched { body, switch } = switched;
    let SwitchState { cases, default, .. } = switch;
    Ok(TStmt {
        token,
        form: TStmtForm::Switch(Box::into_inner(value), cases.into_cases(), default, body),
    })
}
