//! Expressions within statements, and smaller statements, in boxes.

ghost use Rattle.std.specs.Prelude.{◌≡◌};
ghost use Rattle.pw_parse_control.specs.Views.{view_boxed_stmt, view_optional_box};
ghost use Rattle.pw_parse_cursor.specs.Reads.{Reads};
ghost use Rattle.pw_parse_grammar.specs.Declarations as decls;
ghost use Rattle.pw_parse_grammar.specs.Statements as spec;
ghost use Rattle.pw_parse_cursor.specs.PartViews.{view_boxed};
ghost use Rattle.pw_tree.specs.Views.{view_optional};

use crate::parts::StmtParts;
use pw_parse_cursor::{COMMA, Stop, Tokens};
use pw_tree::{Expr, Mark, Stmt};
use std::alloc::Global;

/// An expression of a level, or one that binds more tightly, in a box as soon as it is read.
pub fn boxed_expr<'a, P: StmtParts<'a>>(
    alloc: Global,
    parts: &P,
    tokens: &mut Tokens<'a>,
    level: u8,
) -> Result<Box<Expr>, Stop>
    requires { P.can_read parts.now }
    ensures { Reads view_boxed ((decls.parts (P.limit parts.now)).expr level tokens.old) result tokens.new }
{
    let expr = parts.expr(alloc, tokens, level)?;
    Ok(Box::new(alloc, expr)?)
}

/// A smaller statement, in a box as soon as it is read.
pub fn boxed_stmt<'a, P: StmtParts<'a>>(
    alloc: Global,
    parts: &P,
    tokens: &mut Tokens<'a>,
) -> Result<Box<Stmt>, Stop>
    requires { P.can_read parts.now }
    ensures { Reads view_boxed_stmt (P.parser parts.now tokens.old) result tokens.new }
{
    let stmt = parts.stmt(alloc, tokens)?;
    Ok(Box::new(alloc, stmt)?)
}

/// An expression or none, and the mark behind it.
#[tactic(auto, unfolding(pw_parse_grammar::specs::Statements::up_to))]
pub fn up_to<'a, P: StmtParts<'a>>(
    alloc: Global,
    parts: &P,
    tokens: &mut Tokens<'a>,
    end: Mark,
) -> Result<Option<Box<Expr>>, Stop>
    requires { P.can_read parts.now }
    ensures { Reads view_optional_box (spec.up_to (P.limit parts.now) end tokens.old) result tokens.new }
{
    if tokens.eat(end) {
        return Ok(None);
    }
    let found = boxed_expr(alloc, parts, tokens, COMMA)?;
    tokens.expect(end)?;
    Ok(Some(found))
}

/// An expression out of its box, if there is one.
pub fn unboxed(found: Option<Box<Expr>>) -> Option<Expr>
    ensures { view_optional result ≡ view_optional_box found }
{
    match found {
        Some(found) => Some(Box::into_inner(found)),
        None => None,
    }
}

/// An expression in parentheses.
#[tactic(auto, unfolding(pw_parse_grammar::specs::Statements::condition))]
pub fn condition<'a, P: StmtParts<'a>>(
    alloc: Global,
    parts: &P,
    tokens: &mut Tokens<'a>,
) -> Result<Box<Expr>, Stop>
    requires { P.can_read parts.now }
    ensures { Reads view_boxed (spec.condition (P.limit parts.now) tokens.old) result tokens.new }
{
    tokens.expect(Mark::OpenParen)?;
    let found = boxed_expr(alloc, parts, tokens, COMMA)?;
    tokens.expect(Mark::CloseParen)?;
    Ok(found)
}
