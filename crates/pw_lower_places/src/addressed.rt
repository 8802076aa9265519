//! The locals whose address is taken, as a mark for each local.

ghost use Rattle.std.specs.Prelude.{◌≡◌, [], ◌∷◌};
ghost use Rattle.std.specs.List.{flat_map};
ghost use Rattle.pw_lower.specs.Places as spec;
ghost use Rattle.pw_lower_places.specs.Marks.{marked, addressed_beside};
ghost use Rattle.pw_typed.specs.Views.{view_expr, view_exprs, view_form, view_optional, view_initialiser, view_initialisers, view_stmt, view_stmts, view_arms, view_otherwise};

use pw_typed::{Arm, Initialiser, TExpr, TForm, TStmt, TStmtForm, first_operand};

/// Marks the local of a number.
#[tactic(auto, using(crate::proofs::MarkLaws::marked_one, crate::proofs::MarkLaws::marked_past))]
fn mark(local: u32, marks: &mut [bool])
    ensures { marks.new ≡ marked (local ∷ []) marks.old }
{
    let local = local as usize;
    if local < marks.len() {
        marks[local] = true;
    }
}

/// Marks the locals whose address is taken in an expression.
#[cycle(expression)]
pub fn mark_in(e: &TExpr, marks: &mut [bool])
    ensures { marks.new ≡ marked (spec.addressed_in (view_expr e.now)) marks.old }
{
    mark_node(e, marks);
    let mut node = e;
    while let Some(first) = first_operand(node) {
        mark_node(first, marks);
        node = first;
    }
}

/// Marks a local whose address the operator of a node takes, and those in the operands behind the first.
#[cycle(expression)]
#[tactic(auto, unfolding(pw_typed::specs::Views::view_form), using(pw_typed::proofs::Rows::call_view, pw_typed::proofs::Rows::call_value_view, crate::proofs::MarkLaws::marked_none, crate::proofs::MarkLaws::marked_both))]
fn mark_node(e: &TExpr, marks: &mut [bool])
    ensures { marks.new ≡ marked (addressed_beside (view_form e.now.form)) marks.old }
{
    match &e.form {
        TForm::Address(a) => mark_if_local(a, marks),
        TForm::Binary(_, _, b) | TForm::Logic(_, _, b) | TForm::Compound(_, _, _, b) => {
            mark_in(b, marks)
        }
        TForm::Comma(_, b) | TForm::Assign(_, b) => mark_in(b, marks),
        TForm::Cond(_, b, c) => {
            mark_in(b, marks);
            mark_in(c, marks);
        }
        TForm::Call(_, args) => mark_in_all(args, marks),
        TForm::CallValue(_, args) => mark_in_all(args, marks),
        TForm::Number(_) | TForm::Str(_) | TForm::Local(_) => {}
        TForm::Global(_) | TForm::Function(_) => {}
        TForm::Unary(_, _) | TForm::Step(_, _) | TForm::Member(_, _) => {}
        TForm::Cast(_) | TForm::Decay(_) | TForm::Deref(_) => {}
    }
}

/// Marks a local, where an expression is one.
#[tactic(auto, unfolding(pw_typed::specs::Views::view_form), using(pw_typed::proofs::Rows::call_view, pw_typed::proofs::Rows::call_value_view, crate::proofs::MarkLaws::marked_none))]
fn mark_if_local(e: &TExpr, marks: &mut [bool])
    ensures { marks.new ≡ marked (spec.local_in (view_expr e.now)) marks.old }
{
    match &e.form {
        TForm::Local(local) => mark(*local, marks),
        TForm::Number(_) | TForm::Str(_) | TForm::Global(_) | TForm::Function(_) => {}
        TForm::Unary(_, _) | TForm::Step(_, _) | TForm::Member(_, _) => {}
        TForm::Cast(_) | TForm::Decay(_) | TForm::Deref(_) | TForm::Address(_) => {}
        TForm::Binary(_, _, _) | TForm::Logic(_, _, _) | TForm::Compound(_, _, _, _) => {}
        TForm::Comma(_, _) | TForm::Assign(_, _) | TForm::Cond(_, _, _) => {}
        TForm::Call(_, _) | TForm::CallValue(_, _) => {}
    }
}

/// Marks the locals whose address is taken in expressions.
#[cycle(expression)]
#[tactic(auto, using(crate::proofs::MarkLaws::marked_none, crate::proofs::MarkLaws::marked_both))]
fn mark_in_all(all: &[TExpr], marks: &mut [bool])
    ensures { marks.new ≡ marked (spec.addressed_in_all (view_exprs all.now)) marks.old }
{
    for e in all {
        mark_in(e, marks);
    }
}

/// Marks the locals whose address is taken in an expression that may be left out.
#[tactic(auto, using(crate::proofs::MarkLaws::marked_none))]
fn mark_in_option(e: &Option<TExpr>, marks: &mut [bool])
    ensures { marks.new ≡ marked (spec.addressed_in_option (view_optional e.now)) marks.old }
{
    if let Some(e) = e {
        mark_in(e, marks);
    }
}

/// Marks the locals whose address is taken in initialisers.
#[tactic(auto, using(crate::proofs::MarkLaws::marked_none, crate::proofs::MarkLaws::marked_both))]
fn mark_in_initialisers(all: &[Initialiser], marks: &mut [bool])
    ensures { marks.new ≡ marked (flat_map spec.addressed_in_initialiser (view_initialisers all.now)) marks.old }
{
    for initialiser in all {
        mark_in_initialiser(initialiser, marks);
    }
}

/// Marks the locals whose address is taken in an initialiser. A list in braces and a string are not
/// evaluated.
#[tactic(auto, using(crate::proofs::MarkLaws::marked_none))]
fn mark_in_initialiser(initialiser: &Initialiser, marks: &mut [bool])
    ensures { marks.new ≡ marked (spec.addressed_in_initialiser (view_initialiser initialiser.now)) marks.old }
{
    match initialiser {
        Initialiser::Value(_, value) => mark_in(value, marks),
        Initialiser::Bytes(_, _, _) => {}
    }
}

/// Marks the locals whose address is taken in a statement.
#[cycle(statement)]
#[tactic(auto, unfolding(pw_typed::specs::Views::view_stmt_form), using(pw_typed::proofs::Rows::block_view, pw_typed::proofs::Rows::if_view, crate::proofs::MarkLaws::marked_none, crate::proofs::MarkLaws::marked_both))]
pub fn mark_in_statement(s: &TStmt, marks: &mut [bool])
    ensures { marks.new ≡ marked (spec.addressed_in_statement (view_stmt s.now)) marks.old }
{
    match &s.form {
        TStmtForm::Empty | TStmtForm::Goto(_) | TStmtForm::Break | TStmtForm::Continue => {}
        TStmtForm::Expr(e) => mark_in(e, marks),
        TStmtForm::Return(e) => mark_in_option(e, marks),
        TStmtForm::Block {
            initialisers,
            items,
            ..
        } => {
            mark_in_initialisers(initialisers, marks);
            mark_in_statements(items, marks);
        }
        TStmtForm::If(arms, otherwise) => {
            mark_in_arms(arms, marks);
            mark_in_otherwise(otherwise, marks);
        }
        TStmtForm::While(e, body) | TStmtForm::Switch(e, _, _, body) => {
            mark_in(e, marks);
            mark_in_statement(body, marks);
        }
        TStmtForm::Do(body, e) => {
            mark_in_statement(body, marks);
            mark_in(e, marks);
        }
        TStmtForm::For(first, test, step, body) => {
            mark_in_option(first, marks);
            mark_in_option(test, marks);
            mark_in_option(step, marks);
            mark_in_statement(body, marks);
        }
        TStmtForm::Label(_, body) => mark_in_statement(body, marks),
    }
}

/// Marks the locals whose address is taken in what stands behind a last `else`.
#[cycle(statement)]
#[tactic(auto, using(crate::proofs::MarkLaws::marked_none))]
fn mark_in_otherwise(otherwise: &Option<Box<TStmt>>, marks: &mut [bool])
    ensures { marks.new ≡ marked (spec.addressed_in_otherwise (view_otherwise otherwise.now)) marks.old }
{
    match otherwise {
        Some(s) => mark_in_statement(s, marks),
        None => {}
    }
}

/// Marks the locals whose address is taken in the arms of an `if`.
#[cycle(statement)]
#[tactic(auto, using(crate::proofs::MarkLaws::marked_none, crate::proofs::MarkLaws::marked_both))]
fn mark_in_arms(arms: &[Arm], marks: &mut [bool])
    ensures { marks.new ≡ marked (spec.addressed_in_arms (view_arms arms.now)) marks.old }
{
    for arm in arms {
        mark_in(&arm.condition, marks);
        mark_in_statement(&arm.body, marks);
    }
}

/// Marks the locals whose address is taken in statements.
#[cycle(statement)]
#[tactic(auto, using(crate::proofs::MarkLaws::marked_none, crate::proofs::MarkLaws::marked_both))]
fn mark_in_statements(all: &[TStmt], marks: &mut [bool])
    ensures { marks.new ≡ marked (spec.addressed_in_statements (view_stmts all.now)) marks.old }
{
    for s in all {
        mark_in_statement(s, marks);
    }
}
