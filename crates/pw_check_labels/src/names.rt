//! The names of a function's labels (C90 6.6.1), in the order of the text.

ghost use Rattle.std.specs.Prelude.{◌≡◌, ◌++◌, IfOk, OnOk};
ghost use Rattle.pw_check_rules.specs.Statements as spec;
ghost use Rattle.pw_tree.specs.Trees.{NoElse};
ghost use Rattle.pw_tree.specs.Views.{view_block, view_else_ifs, view_labels, view_stmt, view_stmts};

use pw_check_names::NameList;
use pw_tree::{Block, ElseIf, Label, Stmt, statements_show_their_lists};
use std::alloc::{AllocError, Global};

/// The names of the labels (C90 6.6.1) in a block and in all statements within it, in the order of the text; `case`
/// and `default` have none. Fails only for want of memory.
pub fn labels_in_block<'a>(alloc: Global, block: &'a Block) -> Result<NameList<'a>, AllocError>
    ensures { IfOk result (λ names. names ≡ spec.labels_in_block (view_block block.now)) }
{
    let mut names = NameList::new(alloc);
    add_labels_of_all(&mut names, &block.statements)?;
    Ok(names)
}

/// Those before a statement, behind the names so far.
fn add_names<'a>(names: &mut NameList<'a>, labels: &'a [Label]) -> Result<(), AllocError>
    ensures { OnOk result (names.new ≡ names.old ++ spec.names_of_labels (view_labels labels.now)) }
{
    for label in labels {
        match label {
            Label::Name(word) => names.push(&word.text)?,
            Label::Case { .. } | Label::Default { .. } => {}
        }
    }
    Ok(())
}

/// Those in statements, behind the names so far.
#[cycle(labels)]
fn add_labels_of_all<'a>(names: &mut NameList<'a>, statements: &'a [Stmt]) -> Result<(), AllocError>
    ensures { OnOk result (names.new ≡ names.old ++ spec.labels_in_list (view_stmts statements.now)) }
{
    for stmt in statements {
        add_labels(names, stmt)?;
    }
    Ok(())
}

/// Those in the statements behind each `else if`, behind the names so far.
#[cycle(labels)]
fn add_labels_of_arms<'a>(
    names: &mut NameList<'a>,
    else_ifs: &'a [ElseIf],
) -> Result<(), AllocError>
    ensures { OnOk result (names.new ≡ names.old ++ spec.labels_in_alternative (view_else_ifs else_ifs.now NoElse)) }
{
    for else_if in else_ifs {
        add_labels(names, &else_if.chosen)?;
    }
    Ok(())
}

/// Those in a statement, behind the names so far.
#[cycle(labels)]
#[tactic(auto, unfolding(pw_tree::specs::Views::view_stmt, pw_check_rules::specs::Statements::labels_in))]
fn add_labels<'a>(names: &mut NameList<'a>, stmt: &'a Stmt) -> Result<(), AllocError>
    ensures { OnOk result (names.new ≡ names.old ++ spec.labels_in (view_stmt stmt.now)) }
{
    statements_show_their_lists();
    match stmt {
        Stmt::Block(block) => add_labels_of_all(names, &block.statements),
        Stmt::Labeled { labels, statement } => {
            add_names(names, labels)?;
            add_labels(names, statement)
        }
        Stmt::If {
            chosen,
            else_ifs,
            otherwise,
            ..
        } => {
            add_labels(names, chosen)?;
            add_labels_of_arms(names, else_ifs)?;
            match otherwise {
                Some(last) => add_labels(names, last),
                None => Ok(()),
            }
        }
        Stmt::Switch { body, .. }
        | Stmt::While { body, .. }
        | Stmt::Do { body, .. }
        | Stmt::For { body, .. } => add_labels(names, body),
        Stmt::Expression(_)
        | Stmt::Empty { .. }
        | Stmt::Goto { .. }
        | Stmt::Continue { .. }
        | Stmt::Break { .. }
        | Stmt::Return { .. } => Ok(()),
    }
}
