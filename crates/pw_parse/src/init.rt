//! The knot of initializers, which hold one another: each is read with the parser of the smaller ones, to a depth.

ghost use Rattle.pw_parse_cursor.specs.Reads.{Reads};
ghost use Rattle.pw_parse_grammar.specs.Declarations as spec;
ghost use Rattle.pw_parse.specs.Nests.{Nests};
ghost use Rattle.pw_tree.specs.Views.{view_init};

use pw_parse_cursor::{Stop, Tokens};
use pw_parse_decl::{InitParts, init_of};
use pw_parse_knot::read_expr;
use pw_tree::{Expr, Init};
use std::alloc::{AllocError, Global};

/// A function that reads initializers to a depth.
struct Knot<F> {
    /// How deep the parts of expressions may hold one another.
    limit: usize,
    /// How deep the initializers may still hold one another.
    depth: usize,
    init: F,
}

impl<F: Copy> Clone for Knot<F> {
    fn clone(&self) -> Result<Knot<F>, AllocError> {
        Ok(*self)
    }
}

impl<F: Copy> Copy for Knot<F> {}

impl<'a, F: Fn(Global, &mut Tokens<'a>, usize, usize) -> Result<Init, Stop>> InitParts<'a>
    for Knot<F> {
    ghost limit = { λ k. k.limit };

    ghost parser = { λ k. spec.init k.limit k.depth };

    ghost can_read = { λ k. Nests view_init spec.init k.limit k.depth (F.pre k.init) (F.post k.init) };

    fn expr(&self, alloc: Global, tokens: &mut Tokens<'a>, level: u8) -> Result<Expr, Stop> {
        read_expr(alloc, tokens, self.limit, level)
    }

    fn init(&self, alloc: Global, tokens: &mut Tokens<'a>) -> Result<Init, Stop> {
        (self.init)(alloc, tokens, self.limit, self.depth)
    }
}

/// An initializer (C90 6.5.7).
pub fn init<'a>(
    alloc: Global,
    tokens: &mut Tokens<'a>,
    limit: usize,
    depth: usize,
) -> Result<Init, Stop>
    ensures { Reads view_init (spec.init limit depth tokens.old) result tokens.new }
{
    if depth == 0 {
        return Err(Stop::Fault);
    }
    let smaller = Knot {
        limit,
        depth: depth - 1,
        init,
    };
    init_of(alloc, &smaller, tokens)
}
