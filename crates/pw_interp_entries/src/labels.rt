//! Labels in statements (ISO C90 6.6.1).

ghost use Rattle.std.specs.Prelude.{◌≡◌, ◌++◌};
ghost use Rattle.pw_types.specs.Labels.{labels_in, labels_among, labels_of_arms, labels_behind};
ghost use Rattle.pw_typed.specs.Views.{view_arms, view_otherwise, view_stmt, view_stmts};
ghost use Rattle.pw_cmean.specs.Execution as execution;
ghost use Rattle.pw_interp_entries.specs.Last.{view_last};

use pw_typed::{Arm, TStmt, TStmtForm};

/// Whether a label is among these.
pub fn holds(labels: &[u32], label: u32) -> bool
    ensures { result ≡ execution.holds labels.now label }
{
    labels.iter().any(|other| *other == label)
}

/// Whether a label stands in a statement.
#[cycle(labels)]
#[tactic(auto, unfolding(pw_typed::specs::Views::view_stmt_form), using(crate::proofs::LabelLemmas::holds_append))]
pub fn has_label(statement: &TStmt, label: u32) -> bool
    ensures { result ≡ execution.holds (labels_in (view_stmt statement.now)) label }
{
    match &statement.form {
        TStmtForm::Block { items, .. } => is_among(items, label),
        TStmtForm::If(arms, otherwise) => { is_in_arms(arms, label) || is_behind(otherwise, label) }
        TStmtForm::While(_, body) | TStmtForm::Do(body, _) => has_label(body, label),
        TStmtForm::For(_, _, _, body) | TStmtForm::Switch(_, _, _, body) => has_label(body, label),
        TStmtForm::Label(labels, body) => holds(labels, label) || has_label(body, label),
        TStmtForm::Empty | TStmtForm::Expr(_) | TStmtForm::Goto(_) => false,
        TStmtForm::Break | TStmtForm::Continue | TStmtForm::Return(_) => false,
    }
}

/// Whether a label stands in one of the statements.
#[cycle(labels)]
#[tactic(auto, using(crate::proofs::LabelLemmas::holds_append))]
pub fn is_among(statements: &[TStmt], label: u32) -> bool
    ensures { result ≡ execution.holds (labels_among (view_stmts statements.now)) label }
{
    for statement in statements {
        if has_label(statement, label) {
            return true;
        }
    }
    false
}

/// Whether a label stands in one of these arms.
#[cycle(labels)]
fn is_in_arms(arms: &[Arm], label: u32) -> bool
    ensures { result ≡ execution.holds (labels_of_arms (view_arms arms.now)) label }
{
    for arm in arms {
        if has_label(&arm.body, label) {
            return true;
        }
    }
    false
}

/// Whether a label stands behind a last `else`.
#[cycle(labels)]
fn is_behind(otherwise: &Option<Box<TStmt>>, label: u32) -> bool
    ensures { result ≡ execution.holds (labels_behind (view_otherwise otherwise.now)) label }
{
    match otherwise {
        Some(last) => has_label(last, label),
        None => false,
    }
}

/// Whether a label stands in an `if` with these arms, or behind its last `else`.
#[tactic(auto, using(crate::proofs::LabelLemmas::holds_append))]
pub fn is_in_if(arms: &[Arm], otherwise: &Option<Box<TStmt>>, label: u32) -> bool
    ensures { result ≡ execution.holds (labels_of_arms (view_arms arms.now) ++ labels_behind (view_otherwise otherwise.now)) label }
{
    is_in_arms(arms, label) || is_behind(otherwise, label)
}

/// Whether a label stands in the statement behind a last `else`, if there is one.
fn is_in_last(last: Option<&TStmt>, label: u32) -> bool
    ensures { result ≡ execution.holds (labels_behind (view_last last.entry)) label }
{
    match last {
        Some(last) => has_label(last, label),
        None => false,
    }
}

/// Whether a label stands in these arms, or behind the last `else`.
#[tactic(auto, using(crate::proofs::LabelLemmas::holds_append))]
pub fn is_in_rest(arms: &[Arm], last: Option<&TStmt>, label: u32) -> bool
    ensures { result ≡ execution.holds (labels_of_arms (view_arms arms.now) ++ labels_behind (view_last last.entry)) label }
{
    is_in_arms(arms, label) || is_in_last(last, label)
}
