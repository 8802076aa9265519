//! Jumps (C90 6.6.6).

ghost use Rattle.std.specs.Prelude.{◌≢◌, IfErr};
ghost use Rattle.pw_check_rules.specs.Statements as spec;
ghost use Rattle.pw_check_state.specs.Follows.{Follows, Leads};
ghost use Rattle.pw_check_state.specs.StateViews.{view_state};
ghost use Rattle.pw_check_state.specs.Views.{view_node};
ghost use Rattle.pw_tree.specs.Views.{view_optional, view_word};
ghost use Rattle.pw_typed.specs.Views.{view_stmt};
ghost use Rattle.pw_check_jumps.specs.Returns.{returned_rule};

use pw_check_labels::BodyParts;
use pw_check_operands::{cast_to, is_assignable};
use pw_check_state::{State, fault, typing};
use pw_check_types::is_void;
use pw_check_walk::{CheckFault, CheckKind};
use pw_tree::{Expr, Word};
use pw_typed::{TExpr, TStmt, TStmtForm};
use std::alloc::Global;

/// What a `goto` asks: that its function has the label. It is the jump to it (C90 6.6.6.1).
#[tactic(auto, unfolding(pw_check_walk::specs::Walks::bind, pw_check_walk::specs::Walks::outcome, pw_check_rules::specs::Statements::goto_rule, pw_typed::specs::Views::view_stmt_form))]
pub fn goto_rule(state: &State<'_>, token: usize, word: &Word) -> Result<TStmt, CheckFault>
    ensures follows { Follows view_stmt (spec.goto_rule token (view_word word.now)) (view_state state.now) result }
    ensures no_memory { IfErr result (λ fault. fault.kind ≢ CheckKind.NoMemory) }
{
    let Some(label) = state.place_of_label(&word.text) else {
        return Err(fault(CheckKind::UnknownName, word.token));
    };
    Ok(TStmt {
        token,
        form: TStmtForm::Goto(label),
    })
}

/// What `continue` asks: that it stands in a loop (C90 6.6.6.2).
#[tactic(auto, unfolding(pw_check_walk::specs::Walks::bind, pw_check_walk::specs::Walks::outcome, pw_check_rules::specs::Statements::continue_rule, pw_typed::specs::Views::view_stmt_form))]
pub fn continue_rule(state: &State<'_>, token: usize) -> Result<TStmt, CheckFault>
    ensures follows { Follows view_stmt (spec.continue_rule token) (view_state state.now) result }
    ensures no_memory { IfErr result (λ fault. fault.kind ≢ CheckKind.NoMemory) }
{
    if state.loops() == 0 {
        return Err(typing(token));
    }
    Ok(TStmt {
        token,
        form: TStmtForm::Continue,
    })
}

/// What `break` asks: that it stands in a loop or a `switch` (C90 6.6.6.3).
#[tactic(auto, unfolding(pw_check_walk::specs::Walks::bind, pw_check_walk::specs::Walks::outcome, pw_check_rules::specs::Statements::break_rule, pw_typed::specs::Views::view_stmt_form))]
pub fn break_rule(state: &State<'_>, token: usize) -> Result<TStmt, CheckFault>
    ensures follows { Follows view_stmt (spec.break_rule token) (view_state state.now) result }
    ensures no_memory { IfErr result (λ fault. fault.kind ≢ CheckKind.NoMemory) }
{
    if !state.is_breakable() {
        return Err(typing(token));
    }
    Ok(TStmt {
        token,
        form: TStmtForm::Break,
    })
}

/// A value that is returned is converted to the function's result as by an assignment (C90 6.6.6.4).
#[tactic(auto, unfolding(pw_check_walk::specs::Walks::bind, pw_check_walk::specs::Walks::outcome, crate::specs::Returns::returned_rule, pw_typed::specs::Views::view_stmt_form))]
fn returned(
    alloc: Global,
    state: &State<'_>,
    token: usize,
    value: Box<TExpr>,
) -> Result<TStmt, CheckFault>
    ensures { Follows view_stmt (returned_rule token (view_node value)) (view_state state.now) result }
{
    let result_type = &state.result_type().ty;
    if is_void(result_type) || !is_assignable(alloc, result_type, &value)? {
        return Err(typing(token));
    }
    let value = cast_to(alloc, result_type, value)?;
    Ok(TStmt {
        token,
        form: TStmtForm::Return(Some(Box::into_inner(value))),
    })
}

/// What `return` asks: that the function's result takes the value, where it has one (C90 6.6.6.4).
pub fn return_rule<'a, P: BodyParts<'a>>(
    alloc: Global,
    parts: &P,
    state: &mut State<'a>,
    token: usize,
    value: &'a Option<Expr>,
) -> Result<TStmt, CheckFault>
    requires { P.can_check parts.now }
    ensures { Leads view_stmt (spec.return_rule token (view_optional value.now)) (view_state state.old) result (view_state state.new) }
{
    match value {
        Some(e) => {
            let value = parts.whole(alloc, state, e)?;
            returned(alloc, state, token, value)
        }
        None => Ok(TStmt {
            token,
            form: TStmtForm::Return(None),
        }),
    }
}
