//! The parsers of the parts of declarations and of initializers, which their rules take.

ghost use Rattle.std.specs.Prelude.{ℕ};
ghost use Rattle.pw_parse_grammar.specs.Declarations.{init, parts};
ghost use Rattle.pw_parse_grammar.specs.Input.{Parser};
ghost use Rattle.pw_parse_cursor.specs.Reads.{Reads};
ghost use Rattle.pw_parse_cursor.specs.PartViews.{view_declared, view_specifier_list};
ghost use Rattle.pw_tree.specs.Trees.{Init};
ghost use Rattle.pw_tree.specs.Views.{view_expr, view_init};

use pw_parse_cursor::{Declared, Stop, Tokens};
use pw_parse_grammar::Place;
use pw_tree::{Expr, Init, Specifier};
use std::alloc::Global;

/// Reads specifiers, declarators and initializers within a declaration.
pub trait DeclParts<'a> {
    /// How deep the parts of each may hold one another.
    ghost limit: { Self → ℕ };

    /// Specifiers, none or more; storage classes among them or not.
    fn specifiers(
        &self,
        alloc: Global,
        tokens: &mut Tokens<'a>,
        storage: bool,
    ) -> Result<Vec<Specifier>, Stop>
        ensures { Reads view_specifier_list ((parts (limit self.now)).specifiers storage tokens.old) result tokens.new };

    /// A declarator, behind a type specifier or not.
    fn declarator(
        &self,
        alloc: Global,
        tokens: &mut Tokens<'a>,
        place: Place,
        typed: bool,
    ) -> Result<Declared<'a>, Stop>
        ensures { Reads view_declared ((parts (limit self.now)).declarator place typed tokens.old) result tokens.new };

    /// An initializer (C90 6.5.7).
    fn init(&self, alloc: Global, tokens: &mut Tokens<'a>) -> Result<Init, Stop>
        ensures { Reads view_init (init (limit self.now) (limit self.now) tokens.old) result tokens.new };
}

/// Reads expressions and smaller initializers within an initializer.
pub trait InitParts<'a> {
    /// How deep the parts of expressions may hold one another.
    ghost limit: { Self → ℕ };

    /// What reads a smaller initializer, as a function on lists of tokens.
    ghost parser: { Self → Parser Init };

    /// What has to be known of a value before it reads.
    ghost can_read: { Self → Type 0 };

    /// An expression of a level, or one that binds more tightly.
    fn expr(&self, alloc: Global, tokens: &mut Tokens<'a>, level: u8) -> Result<Expr, Stop>
        requires { can_read self.now }
        ensures { Reads view_expr ((parts (limit self.now)).expr level tokens.old) result tokens.new };

    /// An initializer that stands in another one: an expression, or a list in braces (C90 6.5.7).
    fn init(&self, alloc: Global, tokens: &mut Tokens<'a>) -> Result<Init, Stop>
        requires { can_read self.now }
        ensures { Reads view_init (parser self.now tokens.old) result tokens.new };
}
