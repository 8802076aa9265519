//! Iteration statements (C90 6.6.5).

ghost use Rattle.pw_parse_control.specs.Heads.{for_head, view_for_head};
ghost use Rattle.pw_parse_cursor.specs.Reads.{Reads};
ghost use Rattle.pw_parse_grammar.specs.Statements as spec;
ghost use Rattle.pw_tree.specs.Views.{view_stmt};

use crate::expressions::{boxed_stmt, condition, unboxed, up_to};
use crate::parts::StmtParts;
use pw_parse_cursor::{Stop, Tokens};
use pw_tree::{Expr, Keyword, Mark, Stmt};
use std::alloc::Global;

/// The expressions of a `for`.
#[derive(Drop)]
struct ForHead {
    start: Option<Box<Expr>>,
    condition: Option<Box<Expr>>,
    step: Option<Box<Expr>>,
}

/// Reads a `while` statement (C90 6.6.5.1).
#[tactic(auto, unfolding(pw_parse_grammar::specs::Statements::while_stmt, pw_tree::specs::Views::view_stmt))]
pub fn while_stmt<'a, P: StmtParts<'a>>(
    alloc: Global,
    parts: &P,
    tokens: &mut Tokens<'a>,
) -> Result<Stmt, Stop>
    requires { P.can_read parts.now }
    ensures { Reads view_stmt (spec.while_stmt (P.limit parts.now) (P.parser parts.now) tokens.old) result tokens.new }
{
    let token = tokens.take_number();
    let condition = condition(alloc, parts, tokens)?;
    let body = boxed_stmt(alloc, parts, tokens)?;
    Ok(Stmt::While {
        token,
        condition: Box::into_inner(condition),
        body,
    })
}

/// Reads a `do` statement with its `while` and its semicolon (C90 6.6.5.2).
#[tactic(auto, unfolding(pw_parse_grammar::specs::Statements::do_stmt, pw_tree::specs::Views::view_stmt))]
pub fn do_stmt<'a, P: StmtParts<'a>>(
    alloc: Global,
    parts: &P,
    tokens: &mut Tokens<'a>,
) -> Result<Stmt, Stop>
    requires { P.can_read parts.now }
    ensures { Reads view_stmt (spec.do_stmt (P.limit parts.now) (P.parser parts.now) tokens.old) result tokens.new }
{
    let token = tokens.take_number();
    let body = boxed_stmt(alloc, parts, tokens)?;
    tokens.expect_keyword(Keyword::While)?;
    let condition = condition(alloc, parts, tokens)?;
    tokens.expect(Mark::Semicolon)?;
    Ok(Stmt::Do {
        token,
        body,
        condition: Box::into_inner(condition),
    })
}

/// The expressions of a `for`, from its `(` to its `)`.
#[tactic(auto, unfolding(crate::specs::Heads::for_head))]
fn for_head<'a, P: StmtParts<'a>>(
    alloc: Global,
    parts: &P,
    tokens: &mut Tokens<'a>,
) -> Result<ForHead, Stop>
    requires { P.can_read parts.now }
    ensures { Reads view_for_head (for_head (P.limit parts.now) tokens.old) result tokens.new }
{
    tokens.expect(Mark::OpenParen)?;
    let start = up_to(alloc, parts, tokens, Mark::Semicolon)?;
    let condition = up_to(alloc, parts, tokens, Mark::Semicolon)?;
    let step = up_to(alloc, parts, tokens, Mark::CloseParen)?;
    Ok(ForHead {
        start,
        condition,
        step,
    })
}

/// Reads a `for` statement, of whose expressions each may be left out (C90 6.6.5.3).
pub fn for_stmt<'a, P: StmtParts<'a>>(
    alloc: Global,
    parts: &P,
    tokens: &mut Tokens<'a>,
) -> Result<Stmt, Stop>
    requires { P.can_read parts.now }
    ensures { Reads view_stmt (spec.for_stmt (P.limit parts.now) (P.parser parts.now) tokens.old) result tokens.new }
{
    let token = tokens.take_number();
    let head = for_head(alloc, parts, tokens)?;
    let body = boxed_stmt(alloc, parts, tokens)?;
    Ok(Stmt::For {
        token,
        start: unboxed(head.start),
        condition: unboxed(head.condition),
        step: unboxed(head.step),
        body,
    })
}
