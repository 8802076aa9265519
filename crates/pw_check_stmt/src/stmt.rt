//! Statements (C90 6.6). Each form's rule is written for any parts; `stmt_of` chooses by the form.

ghost use Rattle.std.specs.Prelude.{◌≡◌, true};
ghost use Rattle.pw_check_rules.specs.Statements as spec;
ghost use Rattle.pw_tree.specs.FirstTokens as first;
ghost use Rattle.pw_check_stmt.specs.Items.{is_loop, view_items};
ghost use Rattle.pw_check_choice.specs.Views.{view_body};
ghost use Rattle.pw_check_state.specs.Follows.{Leads};
ghost use Rattle.pw_check_state.specs.StateViews.{view_state};
ghost use Rattle.pw_check_jumps.specs.Views.{view_held};
ghost use Rattle.pw_tree.specs.Trees as tree;
ghost use Rattle.pw_tree.specs.Views.{view_block, view_expr, view_labels, view_optional, view_stmt, view_stmts};
ghost use Rattle.pw_typed.specs.Views as typed;

use pw_check_choice::{boxed_stmt, if_stmt, switch_stmt};
use pw_check_jumps::{
    break_rule, condition_rule, continue_rule, goto_rule, optional_condition, optional_rule,
    return_rule,
};
use pw_check_labels::{BodyParts, labels_rule};
use pw_check_state::State;
use pw_check_walk::CheckFault;
use pw_tree::{Block, Expr, Label, Stmt, statements_show_their_lists};
use pw_typed::{TExpr, TStmt, TStmtForm};
use std::alloc::Global;

/// Statements in their order.
fn stmts_rule<'a, P: BodyParts<'a>>(
    alloc: Global,
    parts: &P,
    state: &mut State<'a>,
    statements: &'a [Stmt],
) -> Result<Vec<TStmt>, CheckFault>
    requires { P.can_check parts.now }
    ensures { Leads view_items (spec.stmts_rule (view_stmts statements.now)) (view_state state.old) result (view_state state.new) }
{
    let mut items = Vec::new(alloc);
    for next in statements {
        let made = parts.stmt(alloc, state, next)?;
        items.push(made)?;
    }
    Ok(items)
}

/// A block, in the scope that is read.
pub fn block_rule<'a, P: BodyParts<'a>>(
    alloc: Global,
    parts: &P,
    state: &mut State<'a>,
    block: &'a Block,
) -> Result<TStmt, CheckFault>
    requires { P.can_check parts.now }
    ensures { Leads typed.view_stmt (spec.block_rule (view_block block.now)) (view_state state.old) result (view_state state.new) }
{
    let first = state.next_local()?;
    let initialisers = parts.decls(alloc, state, &block.declarations)?;
    let end = state.next_local()?;
    let items = stmts_rule(alloc, parts, state, &block.statements)?;
    Ok(TStmt {
        token: block.token,
        form: TStmtForm::Block {
            first,
            count: end.saturating_sub(first),
            initialisers,
            items,
        },
    })
}

/// A block in a scope of its own (C90 6.6.2).
fn scoped_block<'a, P: BodyParts<'a>>(
    alloc: Global,
    parts: &P,
    state: &mut State<'a>,
    block: &'a Block,
) -> Result<TStmt, CheckFault>
    requires { P.can_check parts.now }
    ensures { Leads typed.view_stmt (spec.stmt_rule (tree.Compound (view_block block.now))) (view_state state.old) result (view_state state.new) }
{
    state.one_deeper()?;
    let made = block_rule(alloc, parts, state, block)?;
    state.leave_scope();
    Ok(made)
}

/// An expression statement (C90 6.6.3).
fn expression_stmt<'a, P: BodyParts<'a>>(
    alloc: Global,
    parts: &P,
    state: &mut State<'a>,
    expr: &'a Expr,
) -> Result<TStmt, CheckFault>
    requires { P.can_check parts.now }
    ensures { Leads typed.view_stmt (spec.stmt_rule (tree.Expression (view_expr expr.now))) (view_state state.old) result (view_state state.new) }
{
    let value = parts.whole(alloc, state, expr)?;
    Ok(TStmt {
        token: expr.first_token(),
        form: TStmtForm::Expr(Box::into_inner(value)),
    })
}

/// The number of the first token of labels, 0 where there are none.
fn first_of_labels(labels: &[Label]) -> usize
    ensures { result ≡ first.first_of_labels (view_labels labels.now) 0 }
{
    match labels.first() {
        Some(label) => label.first_token(),
        None => 0,
    }
}

/// A statement behind its labels (C90 6.6.1).
fn labeled_stmt<'a, P: BodyParts<'a>>(
    alloc: Global,
    parts: &P,
    state: &mut State<'a>,
    labels: &'a [Label],
    statement: &'a Stmt,
) -> Result<TStmt, CheckFault>
    requires { P.can_check parts.now }
    ensures { Leads typed.view_stmt (spec.stmt_rule (tree.Labeled (view_labels labels.now) (view_stmt statement.now))) (view_state state.old) result (view_state state.new) }
{
    let numbers = labels_rule(alloc, parts, state, labels)?;
    let body = boxed_stmt(alloc, parts, state, statement)?;
    Ok(TStmt {
        token: first_of_labels(labels),
        form: TStmtForm::Label(numbers, body),
    })
}

/// The body of a loop.
fn in_loop<'a, P: BodyParts<'a>>(
    alloc: Global,
    parts: &P,
    state: &mut State<'a>,
    body: &'a Stmt,
) -> Result<Box<TStmt>, CheckFault>
    requires { P.can_check parts.now }
    ensures { Leads view_body (spec.in_loop (spec.stmt_rule (view_stmt body.now))) (view_state state.old) result (view_state state.new) }
{
    state.enter_loop()?;
    let made = boxed_stmt(alloc, parts, state, body)?;
    state.leave_loop();
    Ok(made)
}

/// A `while` statement: its condition, and its body in a loop (C90 6.6.5.1).
fn while_stmt<'a, P: BodyParts<'a>>(
    alloc: Global,
    parts: &P,
    state: &mut State<'a>,
    token: usize,
    condition: &'a Expr,
    body: &'a Stmt,
) -> Result<TStmt, CheckFault>
    requires { P.can_check parts.now }
    ensures { Leads typed.view_stmt (spec.stmt_rule (tree.While token (view_expr condition.now) (view_stmt body.now))) (view_state state.old) result (view_state state.new) }
{
    let condition = condition_rule(alloc, parts, state, token, condition)?;
    let body = in_loop(alloc, parts, state, body)?;
    Ok(TStmt {
        token,
        form: TStmtForm::While(Box::into_inner(condition), body),
    })
}

/// A `do` statement: its body in a loop, and its condition (C90 6.6.5.2).
fn do_stmt<'a, P: BodyParts<'a>>(
    alloc: Global,
    parts: &P,
    state: &mut State<'a>,
    token: usize,
    body: &'a Stmt,
    condition: &'a Expr,
) -> Result<TStmt, CheckFault>
    requires { P.can_check parts.now }
    ensures { Leads typed.view_stmt (spec.stmt_rule (tree.Do token (view_stmt body.now) (view_expr condition.now))) (view_state state.old) result (view_state state.new) }
{
    let body = in_loop(alloc, parts, state, body)?;
    let condition = condition_rule(alloc, parts, state, token, condition)?;
    Ok(TStmt {
        token,
        form: TStmtForm::Do(body, Box::into_inner(condition)),
    })
}

/// An expression that may be left out, without its box.
fn unboxed(held: Option<Box<TExpr>>) -> Option<TExpr>
    ensures { typed.view_optional result ≡ view_held held }
{
    match held {
        Some(e) => Some(Box::into_inner(e)),
        None => None,
    }
}

/// A `for` statement: its three expressions, each of which may be left out, and its body in a loop (C90 6.6.5.3).
fn for_stmt<'a, P: BodyParts<'a>>(
    alloc: Global,
    parts: &P,
    state: &mut State<'a>,
    token: usize,
    start: &'a Option<Expr>,
    condition: &'a Option<Expr>,
    step: &'a Option<Expr>,
    body: &'a Stmt,
) -> Result<TStmt, CheckFault>
    requires { P.can_check parts.now }
    ensures { Leads typed.view_stmt (spec.stmt_rule (tree.For token (view_optional start.now) (view_optional condition.now) (view_optional step.now) (view_stmt body.now))) (view_state state.old) result (view_state state.new) }
{
    let start = optional_rule(alloc, parts, state, start)?;
    let condition = optional_condition(alloc, parts, state, token, condition)?;
    let step = optional_rule(alloc, parts, state, step)?;
    let body = in_loop(alloc, parts, state, body)?;
    Ok(TStmt {
        token,
        form: TStmtForm::For(unboxed(start), unboxed(condition), unboxed(step), body),
    })
}

/// A loop (C90 6.6.5).
#[tactic(auto, unfolding(pw_tree::specs::Views::view_stmt))]
fn loop_stmt<'a, P: BodyParts<'a>>(
    alloc: Global,
    parts: &P,
    state: &mut State<'a>,
    stmt: &'a Stmt,
) -> Result<TStmt, CheckFault>
    requires checks { P.can_check parts.now }
    requires loops { is_loop stmt.now ≡ true }
    ensures { Leads typed.view_stmt (spec.stmt_rule (view_stmt stmt.now)) (view_state state.old) result (view_state state.new) }
{
    match stmt {
        Stmt::While {
            token,
            condition,
            body,
        } => while_stmt(alloc, parts, state, *token, condition, body),
        Stmt::Do {
            token,
            body,
            condition,
        } => do_stmt(alloc, parts, state, *token, body, condition),
        Stmt::For {
            token,
            start,
            condition,
            step,
            body,
        } => for_stmt(alloc, parts, state, *token, start, condition, step, body),
        Stmt::Block(_)
        | Stmt::Expression(_)
        | Stmt::Empty { .. }
        | Stmt::Labeled { .. }
        | Stmt::If { .. }
        | Stmt::Switch { .. }
        | Stmt::Goto { .. }
        | Stmt::Continue { .. }
        | Stmt::Break { .. }
        | Stmt::Return { .. } => unreachable!(),
    }
}

/// A statement (C90 6.6).
#[tactic(auto, unfolding(pw_tree::specs::Views::view_stmt))]
pub fn stmt_of<'a, P: BodyParts<'a>>(
    alloc: Global,
    parts: &P,
    state: &mut State<'a>,
    stmt: &'a Stmt,
) -> Result<TStmt, CheckFault>
    requires { P.can_check parts.now }
    ensures { Leads typed.view_stmt (spec.stmt_rule (view_stmt stmt.now)) (view_state state.old) result (view_state state.new) }
{
    statements_show_their_lists();
    match stmt {
        Stmt::Block(block) => scoped_block(alloc, parts, state, block),
        Stmt::Expression(e) => expression_stmt(alloc, parts, state, e),
        Stmt::Empty { token } => Ok(TStmt {
            token: *token,
            form: TStmtForm::Empty,
        }),
        Stmt::Labeled { labels, statement } => labeled_stmt(alloc, parts, state, labels, statement),
        Stmt::If {
            token,
            condition,
            chosen,
            else_ifs,
            otherwise,
        } => if_stmt(
            alloc, parts, state, *token, condition, chosen, else_ifs, otherwise,
        ),
        Stmt::Switch { token, value, body } => {
            switch_stmt(alloc, parts, state, *token, value, body)
        }
        Stmt::While { .. } | Stmt::Do { .. } | Stmt::For { .. } => {
            loop_stmt(alloc, parts, state, stmt)
        }
        Stmt::Goto { token, label } => goto_rule(state, *token, label),
        Stmt::Continue { token } => continue_rule(state, *token),
        Stmt::Break { token } => break_rule(state, *token),
        Stmt::Return { token, value } => return_rule(alloc, parts, state, *token, value),
    }
}
