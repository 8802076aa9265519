//! What statements hold. A statement that holds no such thing holds an empty one.

ghost use Rattle.std.specs.Prelude.{◌≡◌};
ghost use Rattle.pw_typed.specs.Views.{view_arms, view_initialisers, view_otherwise, view_stmt, view_stmts};
ghost use Rattle.pw_interp_todo.specs.Members as spec;
ghost use Rattle.pw_interp_entries.specs.Last.{view_last};

use pw_typed::{Arm, Initialiser, TStmt, TStmtForm};

/// The initialisers of a block's own locals, in the order of the text (C90 6.6.2); of another statement none.
#[tactic(auto, unfolding(pw_typed::specs::Views::view_stmt_form), using(pw_typed::proofs::Rows::block_view, pw_typed::proofs::Rows::if_view))]
pub fn initialisers_in<'a>(s: &'a TStmt) -> &'a [Initialiser]
    ensures { view_initialisers result.now ≡ spec.initialisers_in (view_stmt s.now) }
{
    match &s.form {
        TStmtForm::Block { initialisers, .. } => initialisers,
        _ => &[],
    }
}

/// The statements of a block; of any other statement none.
#[tactic(auto, unfolding(pw_typed::specs::Views::view_stmt_form), using(pw_typed::proofs::Rows::block_view, pw_typed::proofs::Rows::if_view))]
pub fn members_in<'a>(s: &'a TStmt) -> &'a [TStmt]
    ensures { view_stmts result.now ≡ spec.members_in (view_stmt s.now) }
{
    match &s.form {
        TStmtForm::Block { items, .. } => items,
        _ => &[],
    }
}

/// The arms of an `if` with its `else if`s, in the order of the text, each a condition and a statement (C90 6.6.4.1);
/// of another statement none.
#[tactic(auto, unfolding(pw_typed::specs::Views::view_stmt_form), using(pw_typed::proofs::Rows::block_view, pw_typed::proofs::Rows::if_view))]
pub fn arms_in<'a>(s: &'a TStmt) -> &'a [Arm]
    ensures { view_arms result.now ≡ spec.arms_in (view_stmt s.now) }
{
    match &s.form {
        TStmtForm::If(arms, _) => arms,
        _ => &[],
    }
}

/// What stands behind a last `else`, if there is one.
fn last_in(otherwise: &Option<Box<TStmt>>) -> Option<&TStmt>
    ensures { view_last result ≡ view_otherwise otherwise.now }
{
    match otherwise {
        Some(last) => Some(last),
        None => None,
    }
}

/// What stands behind the last `else` of an `if`.
#[tactic(auto, unfolding(pw_typed::specs::Views::view_stmt_form), using(pw_typed::proofs::Rows::block_view, pw_typed::proofs::Rows::if_view))]
pub fn otherwise_in<'a>(s: &'a TStmt) -> Option<&'a TStmt>
    ensures { view_last result ≡ spec.otherwise_in (view_stmt s.now) }
{
    match &s.form {
        TStmtForm::If(_, otherwise) => last_in(otherwise),
        _ => None,
    }
}
