//! The knot of statements, which hold one another: each is read with the parser of the smaller ones, to a depth.

ghost use Rattle.pw_parse_cursor.specs.Reads.{Reads};
ghost use Rattle.pw_parse_grammar.specs.Statements as spec;
ghost use Rattle.pw_parse.specs.Nests.{Nests};
ghost use Rattle.pw_tree.specs.Views.{view_block, view_stmt};

use crate::decl::ToDepth;
use pw_parse_cursor::{Stop, Tokens};
use pw_parse_decl::declarations;
use pw_parse_knot::read_expr;
use pw_parse_stmt::{StmtParts, block, stmt_of};
use pw_tree::{Block, Decl, Expr, Stmt};
use std::alloc::{AllocError, Global};

/// A function that reads statements to a depth.
struct Knot<F> {
    /// How deep the parts of expressions and declarations may hold one another.
    limit: usize,
    /// How deep the statements may still hold one another.
    depth: usize,
    stmt: F,
}

impl<F: Copy> Clone for Knot<F> {
    fn clone(&self) -> Result<Knot<F>, AllocError> {
        Ok(*self)
    }
}

impl<F: Copy> Copy for Knot<F> {}

impl<'a, F: Fn(Global, &mut Tokens<'a>, usize, usize) -> Result<Stmt, Stop>> StmtParts<'a>
    for Knot<F> {
    ghost limit = { λ k. k.limit };

    ghost parser = { λ k. spec.stmt k.limit k.depth };

    ghost can_read = { λ k. Nests view_stmt spec.stmt k.limit k.depth (F.pre k.stmt) (F.post k.stmt) };

    fn expr(&self, alloc: Global, tokens: &mut Tokens<'a>, level: u8) -> Result<Expr, Stop> {
        read_expr(alloc, tokens, self.limit, level)
    }

    fn declarations(&self, alloc: Global, tokens: &mut Tokens<'a>) -> Result<Vec<Decl>, Stop> {
        declarations(alloc, &ToDepth(self.limit), tokens, true)
    }

    fn stmt(&self, alloc: Global, tokens: &mut Tokens<'a>) -> Result<Stmt, Stop> {
        (self.stmt)(alloc, tokens, self.limit, self.depth)
    }
}

/// A statement (C90 6.6).
pub fn stmt<'a>(
    alloc: Global,
    tokens: &mut Tokens<'a>,
    limit: usize,
    depth: usize,
) -> Result<Stmt, Stop>
    ensures { Reads view_stmt (spec.stmt limit depth tokens.old) result tokens.new }
{
    if depth == 0 {
        return Err(Stop::Fault);
    }
    let smaller = Knot {
        limit,
        depth: depth - 1,
        stmt,
    };
    stmt_of(alloc, &smaller, tokens)
}

/// The body of a function (C90 6.7.1).
pub fn body<'a>(alloc: Global, tokens: &mut Tokens<'a>, limit: usize) -> Result<Block, Stop>
    ensures { Reads view_block (spec.block limit (spec.stmt limit limit) tokens.old) result tokens.new }
{
    let smaller = Knot {
        limit,
        depth: limit,
        stmt,
    };
    block(alloc, &smaller, tokens)
}
