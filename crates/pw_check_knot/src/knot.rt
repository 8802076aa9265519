//! The knot of expressions, specifiers and declarators: each is checked with the rules of the smaller ones, to a depth.
//! A tree of greater depth is want of memory: the stack is memory.

ghost use Rattle.pw_check_rules.specs.Declarations as declarations;
ghost use Rattle.pw_check_rules.specs.Phrases as spec;
ghost use Rattle.pw_check_state.specs.Follows.{Leads};
ghost use Rattle.pw_check_state.specs.PhraseViews.{view_declared, view_specified};
ghost use Rattle.pw_check_state.specs.StateViews.{view_state};
ghost use Rattle.pw_check_state.specs.Views.{view_operand};
ghost use Rattle.pw_tree.specs.Views.{view_declarator, view_expr, view_specifiers};
ghost use Rattle.pw_check_knot.specs.Nests.{Nests};

use pw_check_declarator::declarator_of;
use pw_check_expr::expr_of;
use pw_check_specifier_lists::specifiers_of;
use pw_check_state::{Declared, Operand, Phrases, Specified, State, fault};
use pw_check_walk::{CheckFault, CheckKind};
use pw_tree::{Declarator, Expr, Specifier};
use std::alloc::{AllocError, Global};

/// Functions that check the three kinds of phrases to a depth.
struct Smaller<E, S, D> {
    /// How deep the phrases may still hold one another.
    depth: usize,
    expr: E,
    specifiers: S,
    declarator: D,
}

impl<E: Copy, S: Copy, D: Copy> Clone for Smaller<E, S, D> {
    fn clone(&self) -> Result<Smaller<E, S, D>, AllocError> {
        Ok(*self)
    }
}

impl<E: Copy, S: Copy, D: Copy> Copy for Smaller<E, S, D> {}

impl<
    'a,
    E: Fn(Global, &mut State<'a>, usize, &'a Expr) -> Result<Operand, CheckFault>,
    S: Fn(Global, &mut State<'a>, usize, &'a [Specifier], usize) -> Result<Specified, CheckFault>,
    D: Fn(Global, &mut State<'a>, usize, &'a Declarator) -> Result<Declared<'a>, CheckFault>,
> Phrases<'a> for Smaller<E, S, D> {
    ghost can_check = { λ k. Nests k.depth (E.pre k.expr) (E.post k.expr) (S.pre k.specifiers) (S.post k.specifiers) (D.pre k.declarator) (D.post k.declarator) };

    fn expr(
        &self,
        alloc: Global,
        state: &mut State<'a>,
        expr: &'a Expr,
    ) -> Result<Operand, CheckFault> {
        (self.expr)(alloc, state, self.depth, expr)
    }

    fn specifiers(
        &self,
        alloc: Global,
        state: &mut State<'a>,
        specifiers: &'a [Specifier],
        first: usize,
    ) -> Result<Specified, CheckFault> {
        (self.specifiers)(alloc, state, self.depth, specifiers, first)
    }

    fn declarator(
        &self,
        alloc: Global,
        state: &mut State<'a>,
        declarator: &'a Declarator,
    ) -> Result<Declared<'a>, CheckFault> {
        (self.declarator)(alloc, state, self.depth, declarator)
    }
}

/// Checks an expression (C90 6.3), and answers its typed tree with what is known of it as an operand. A tree nested
/// deeper than `depth` is want of memory.
#[cycle(phrases)]
pub fn check_expr<'a>(
    alloc: Global,
    state: &mut State<'a>,
    depth: usize,
    expr: &'a Expr,
) -> Result<Operand, CheckFault>
    ensures { Leads view_operand (spec.expr_rule (view_expr expr.now)) (view_state state.old) result (view_state state.new) }
{
    if depth == 0 {
        return Err(fault(CheckKind::NoMemory, 0));
    }
    let smaller = Smaller {
        depth: depth - 1,
        expr: check_expr,
        specifiers: check_specifiers,
        declarator: check_declarator,
    };
    expr_of(alloc, &smaller, state, expr)
}

/// A list of specifiers, by its first token.
#[cycle(phrases)]
pub fn check_specifiers<'a>(
    alloc: Global,
    state: &mut State<'a>,
    depth: usize,
    specifiers: &'a [Specifier],
    first: usize,
) -> Result<Specified, CheckFault>
    ensures { Leads view_specified (declarations.specified_rule (view_specifiers specifiers.now) first) (view_state state.old) result (view_state state.new) }
{
    if depth == 0 {
        return Err(fault(CheckKind::NoMemory, 0));
    }
    let smaller = Smaller {
        depth: depth - 1,
        expr: check_expr,
        specifiers: check_specifiers,
        declarator: check_declarator,
    };
    specifiers_of(alloc, &smaller, state, specifiers, first)
}

/// Checks a declarator (C90 6.5.4), and answers its name and the steps from the specifiers' type to the declared one.
/// One nested deeper than `depth` is want of memory.
#[cycle(phrases)]
pub fn check_declarator<'a>(
    alloc: Global,
    state: &mut State<'a>,
    depth: usize,
    declarator: &'a Declarator,
) -> Result<Declared<'a>, CheckFault>
    ensures { Leads view_declared (spec.declarator_rule (view_declarator declarator.now)) (view_state state.old) result (view_state state.new) }
{
    if depth == 0 {
        return Err(fault(CheckKind::NoMemory, 0));
    }
    let smaller = Smaller {
        depth: depth - 1,
        expr: check_expr,
        specifiers: check_specifiers,
        declarator: check_declarator,
    };
    declarator_of(alloc, &smaller, state, declarator)
}

/// Checks phrases to a depth.
#[derive(Clone, Copy)]
pub struct Knot {
    pub depth: usize,
}

impl<'a> Phrases<'a> for Knot {
    ghost can_check = { λ k. Unit {0} };

    fn expr(
        &self,
        alloc: Global,
        state: &mut State<'a>,
        expr: &'a Expr,
    ) -> Result<Operand, CheckFault> {
        check_expr(alloc, state, self.depth, expr)
    }

    fn specifiers(
        &self,
        alloc: Global,
        state: &mut State<'a>,
        specifiers: &'a [Specifier],
        first: usize,
    ) -> Result<Specified, CheckFault> {
        check_specifiers(alloc, state, self.depth, specifiers, first)
    }

    fn declarator(
        &self,
        alloc: Global,
        state: &mut State<'a>,
        declarator: &'a Declarator,
    ) -> Result<Declared<'a>, CheckFault> {
        check_declarator(alloc, state, self.depth, declarator)
    }
}
