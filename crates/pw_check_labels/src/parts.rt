//! The rules of the phrases within a statement, which the rules of statements take.

ghost use Rattle.pw_check_rules.specs.Declarations as declarations;
ghost use Rattle.pw_check_rules.specs.Statements as spec;
ghost use Rattle.pw_check_labels.specs.Views.{view_made};
ghost use Rattle.pw_check_state.specs.Follows.{Leads};
ghost use Rattle.pw_check_state.specs.StateViews.{view_state};
ghost use Rattle.pw_check_state.specs.Views.{view_node};
ghost use Rattle.pw_tree.specs.Views.{view_decls, view_expr, view_stmt};
ghost use Rattle.pw_typed.specs.Views as typed;

use pw_check_state::State;
use pw_check_walk::CheckFault;
use pw_tree::{Decl, Expr, Stmt};
use pw_typed::{Initialiser, TExpr, TStmt};
use std::alloc::Global;

/// Checks expressions, declarations and smaller statements within a statement.
pub trait BodyParts<'a> {
    /// What has to be known of a value before it checks.
    ghost can_check: { Self → Type 0 };

    /// An expression, and then its value.
    fn whole(
        &self,
        alloc: Global,
        state: &mut State<'a>,
        expr: &'a Expr,
    ) -> Result<Box<TExpr>, CheckFault>
        requires { can_check self.now }
        ensures { Leads view_node (spec.whole_rule (view_expr expr.now)) (view_state state.old) result (view_state state.new) };

    /// The declarations of a block, with the initialisers of its locals.
    fn decls(
        &self,
        alloc: Global,
        state: &mut State<'a>,
        decls: &'a [Decl],
    ) -> Result<Vec<Initialiser>, CheckFault>
        requires { can_check self.now }
        ensures { Leads view_made (declarations.decls_rule (view_decls decls.now)) (view_state state.old) result (view_state state.new) };

    /// A statement that stands in another one (C90 6.6).
    fn stmt(
        &self,
        alloc: Global,
        state: &mut State<'a>,
        stmt: &'a Stmt,
    ) -> Result<TStmt, CheckFault>
        requires { can_check self.now }
        ensures { Leads typed.view_stmt (spec.stmt_rule (view_stmt stmt.now)) (view_state state.old) result (view_state state.new) };
}
