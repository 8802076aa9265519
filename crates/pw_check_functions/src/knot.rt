//! The knot of statements, which hold one another: each is checked with the rules of the smaller ones, to a depth. A
//! tree of greater depth is want of memory: the stack is memory.

ghost use Rattle.std.specs.Prelude.{◌≡◌};
ghost use Rattle.pw_check_functions.specs.Depth.{levels_within_a_nest, phrase_depth};
ghost use Rattle.pw_check_functions.specs.Nests.{Nests};
ghost use Rattle.pw_check_stmt.specs.Views.{view_body};
ghost use Rattle.pw_check_state.specs.Follows.{Leads};
ghost use Rattle.pw_check_state.specs.StateViews.{view_state};
ghost use Rattle.pw_check_rules.specs.Statements as spec;
ghost use Rattle.pw_tree.specs.Views.{view_block, view_stmt};
ghost use Rattle.pw_typed.specs.Views as typed;

use pw_check_decl::decls_rule;
use pw_check_knot::Knot;
use pw_check_labels::BodyParts;
use pw_check_state::{State, fault, whole_rule};
use pw_check_stmt::{block_rule, stmt_of};
use pw_check_walk::{CheckFault, CheckKind};
use pw_token::NEST_LIMIT;
use pw_tree::{Block, Decl, Expr, Stmt};
use pw_typed::{Initialiser, TExpr, TStmt};
use std::alloc::{AllocError, Global};

/// The levels of phrases within a level of nesting: no fewer than there are ranks of operators (C90 6.3.1 to 6.3.17).
pub const LEVELS_WITHIN_A_NEST: usize = 20;

/// How deep the phrases and statements of a module may hold one another: within a token of nesting an expression has one
/// level for each rank of operators.
pub const PHRASE_DEPTH: usize = LEVELS_WITHIN_A_NEST * NEST_LIMIT;

/// The limits are those that the definitions speak of.
pub fn limits_of_phrases()
    ensures levels { LEVELS_WITHIN_A_NEST ≡ levels_within_a_nest }
    ensures depth { PHRASE_DEPTH ≡ phrase_depth }
{}

/// The rules of phrases, to the depth.
pub fn phrases() -> Knot
    ensures { result.depth ≡ phrase_depth }
{
    Knot {
        depth: PHRASE_DEPTH,
    }
}

/// A function that checks statements to a depth.
struct Smaller<F> {
    /// How deep the statements may still hold one another.
    depth: usize,
    stmt: F,
}

impl<F: Copy> Clone for Smaller<F> {
    fn clone(&self) -> Result<Smaller<F>, AllocError> {
        Ok(*self)
    }
}

impl<F: Copy> Copy for Smaller<F> {}

impl<F> Smaller<F> {
    /// The function, to the depth.
    fn whole(stmt: F) -> Smaller<F>
        ensures depth { result.depth ≡ phrase_depth }
        ensures stmt { result.stmt ≡ stmt }
    {
        Smaller {
            depth: PHRASE_DEPTH,
            stmt,
        }
    }
}

impl<'a, F: Fn(Global, &mut State<'a>, usize, &'a Stmt) -> Result<TStmt, CheckFault>> BodyParts<'a>
    for Smaller<F> {
    ghost can_check = { λ k. Nests k.depth (F.pre k.stmt) (F.post k.stmt) };

    fn whole(
        &self,
        alloc: Global,
        state: &mut State<'a>,
        expr: &'a Expr,
    ) -> Result<Box<TExpr>, CheckFault> {
        whole_rule(alloc, &phrases(), state, expr)
    }

    fn decls(
        &self,
        alloc: Global,
        state: &mut State<'a>,
        decls: &'a [Decl],
    ) -> Result<Vec<Initialiser>, CheckFault> {
        decls_rule(alloc, &phrases(), state, decls)
    }

    fn stmt(
        &self,
        alloc: Global,
        state: &mut State<'a>,
        stmt: &'a Stmt,
    ) -> Result<TStmt, CheckFault> {
        (self.stmt)(alloc, state, self.depth, stmt)
    }
}

/// A statement (C90 6.6).
fn check_stmt<'a>(
    alloc: Global,
    state: &mut State<'a>,
    depth: usize,
    stmt: &'a Stmt,
) -> Result<TStmt, CheckFault>
    ensures { Leads typed.view_stmt (spec.stmt_rule (view_stmt stmt.now)) (view_state state.old) result (view_state state.new) }
{
    if depth == 0 {
        return Err(fault(CheckKind::NoMemory, 0));
    }
    let smaller = Smaller {
        depth: depth - 1,
        stmt: check_stmt,
    };
    stmt_of(alloc, &smaller, state, stmt)
}

/// The block of a function, in the scope of its parameters, in a box.
pub(crate) fn check_body<'a>(
    alloc: Global,
    state: &mut State<'a>,
    block: &'a Block,
) -> Result<Box<TStmt>, CheckFault>
    ensures { Leads view_body (spec.block_rule (view_block block.now)) (view_state state.old) result (view_state state.new) }
{
    let smaller = Smaller::whole(check_stmt);
    let made = block_rule(alloc, &smaller, state, block)?;
    Ok(Box::new(alloc, made)?)
}
