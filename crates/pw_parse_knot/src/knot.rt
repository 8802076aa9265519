//! The knot of expressions, specifiers and declarators, which hold one another: each is read with the parsers of the
//! smaller ones, to a depth.

ghost use Rattle.pw_parse_grammar.specs.Declarations.{parts};
ghost use Rattle.pw_parse_knot.specs.Nests.{Nests};
ghost use Rattle.pw_parse_cursor.specs.Reads.{Reads};
ghost use Rattle.pw_parse_cursor.specs.PartViews.{view_declared, view_specifier_list};
ghost use Rattle.pw_tree.specs.Views.{view_expr};

use pw_parse_cursor::{Declared, SmallerParts, Stop, Tokens};
use pw_parse_declarators::declarator_of;
use pw_parse_expr::expr_of;
use pw_parse_grammar::Place;
use pw_parse_specifiers::specifiers_of;
use pw_tree::{Expr, Specifier};
use std::alloc::{AllocError, Global};

/// Functions that read the three parts to a depth.
struct Knot<E, S, D> {
    /// How deep the parts may still hold one another.
    depth: usize,
    expr: E,
    specifiers: S,
    declarator: D,
}

impl<E: Copy, S: Copy, D: Copy> Clone for Knot<E, S, D> {
    fn clone(&self) -> Result<Knot<E, S, D>, AllocError> {
        Ok(*self)
    }
}

impl<E: Copy, S: Copy, D: Copy> Copy for Knot<E, S, D> {}

impl<
    'a,
    E: Fn(Global, &mut Tokens<'a>, usize, u8) -> Result<Expr, Stop>,
    S: Fn(Global, &mut Tokens<'a>, usize, bool) -> Result<Vec<Specifier>, Stop>,
    D: Fn(Global, &mut Tokens<'a>, usize, Place, bool) -> Result<Declared<'a>, Stop>,
> SmallerParts<'a> for Knot<E, S, D> {
    ghost parsers = { λ k. parts k.depth };

    ghost can_read = { λ k. Nests k.depth (E.pre k.expr) (E.post k.expr) (S.pre k.specifiers) (S.post k.specifiers) (D.pre k.declarator) (D.post k.declarator) };

    fn expr(&self, alloc: Global, tokens: &mut Tokens<'a>, level: u8) -> Result<Expr, Stop> {
        (self.expr)(alloc, tokens, self.depth, level)
    }

    fn specifiers(
        &self,
        alloc: Global,
        tokens: &mut Tokens<'a>,
        storage: bool,
    ) -> Result<Vec<Specifier>, Stop> {
        (self.specifiers)(alloc, tokens, self.depth, storage)
    }

    fn declarator(
        &self,
        alloc: Global,
        tokens: &mut Tokens<'a>,
        place: Place,
        typed: bool,
    ) -> Result<Declared<'a>, Stop> {
        (self.declarator)(alloc, tokens, self.depth, place, typed)
    }
}

/// An expression of a level, or one that binds more tightly.
#[cycle(parts)]
pub fn read_expr<'a>(
    alloc: Global,
    tokens: &mut Tokens<'a>,
    depth: usize,
    level: u8,
) -> Result<Expr, Stop>
    ensures { Reads view_expr ((parts depth).expr level tokens.old) result tokens.new }
{
    if depth == 0 {
        return Err(Stop::Fault);
    }
    let smaller = Knot {
        depth: depth - 1,
        expr: read_expr,
        specifiers: read_specifiers,
        declarator: read_declarator,
    };
    expr_of(alloc, &smaller, tokens, level)
}

/// Specifiers, none or more.
#[cycle(parts)]
pub fn read_specifiers<'a>(
    alloc: Global,
    tokens: &mut Tokens<'a>,
    depth: usize,
    storage: bool,
) -> Result<Vec<Specifier>, Stop>
    ensures { Reads view_specifier_list ((parts depth).specifiers storage tokens.old) result tokens.new }
{
    if depth == 0 {
        return Err(Stop::Fault);
    }
    let smaller = Knot {
        depth: depth - 1,
        expr: read_expr,
        specifiers: read_specifiers,
        declarator: read_declarator,
    };
    specifiers_of(alloc, &smaller, tokens, storage)
}

/// Reads a declarator (C90 6.5.4), of a kind that `place` allows, behind a type specifier or not. One nested deeper
/// than `depth` is a fault.
#[cycle(parts)]
pub fn read_declarator<'a>(
    alloc: Global,
    tokens: &mut Tokens<'a>,
    depth: usize,
    place: Place,
    typed: bool,
) -> Result<Declared<'a>, Stop>
    ensures { Reads view_declared ((parts depth).declarator place typed tokens.old) result tokens.new }
{
    if depth == 0 {
        return Err(Stop::Fault);
    }
    let smaller = Knot {
        depth: depth - 1,
        expr: read_expr,
        specifiers: read_specifiers,
        declarator: read_declarator,
    };
    declarator_of(alloc, &smaller, tokens, place, typed)
}
