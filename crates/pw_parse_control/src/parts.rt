//! The parsers of the parts of statements, which their rules take.

ghost use Rattle.std.specs.Prelude.{ℕ, true};
ghost use Rattle.pw_parse_grammar.specs.Declarations.{declarations, parts};
ghost use Rattle.pw_parse_grammar.specs.Input.{Parser};
ghost use Rattle.pw_parse_cursor.specs.Reads.{Reads};
ghost use Rattle.pw_parse_cursor.specs.PartViews.{view_decl_list};
ghost use Rattle.pw_tree.specs.Trees.{Stmt};
ghost use Rattle.pw_tree.specs.Views.{view_expr, view_stmt};

use pw_parse_cursor::{Stop, Tokens};
use pw_tree::{Decl, Expr, Stmt};
use std::alloc::Global;

/// Reads expressions, declarations and smaller statements within a statement.
pub trait StmtParts<'a> {
    /// How deep the parts of expressions and declarations may hold one another.
    ghost limit: { Self → ℕ };

    /// What reads a smaller statement, as a function on lists of tokens.
    ghost parser: { Self → Parser Stmt };

    /// What has to be known of a value before it reads.
    ghost can_read: { Self → Type 0 };

    /// An expression of a level, or one that binds more tightly.
    fn expr(&self, alloc: Global, tokens: &mut Tokens<'a>, level: u8) -> Result<Expr, Stop>
        requires { can_read self.now }
        ensures { Reads view_expr ((parts (limit self.now)).expr level tokens.old) result tokens.new };

    /// Declarations, none or more, behind which statements may stand.
    fn declarations(&self, alloc: Global, tokens: &mut Tokens<'a>) -> Result<Vec<Decl>, Stop>
        requires { can_read self.now }
        ensures { Reads view_decl_list (declarations (limit self.now) true tokens.old) result tokens.new };

    /// A statement that stands in another one (C90 6.6).
    fn stmt(&self, alloc: Global, tokens: &mut Tokens<'a>) -> Result<Stmt, Stop>
        requires { can_read self.now }
        ensures { Reads view_stmt (parser self.now tokens.old) result tokens.new };
}
