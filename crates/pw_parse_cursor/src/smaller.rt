//! The parsers of smaller parts, which the rules of a part take.

ghost use Rattle.pw_parse_grammar.specs.Expressions as spec;
ghost use Rattle.pw_parse_grammar.specs.Parts.{Parts};
ghost use Rattle.pw_parse_cursor.specs.Reads.{Reads};
ghost use Rattle.pw_parse_cursor.specs.PartViews.{view_boxed, view_declared, view_specifier_list};
ghost use Rattle.pw_tree.specs.Views.{view_expr};

use crate::declared::Declared;
use crate::stop::Stop;
use crate::tokens::Tokens;
use pw_parse_grammar::Place;
use pw_tree::{Expr, Specifier};
use std::alloc::Global;

/// Reads expressions, specifiers and declarators within a larger one.
pub trait SmallerParts<'a> {
    /// What they read, as functions on lists of tokens.
    ghost parsers: { Self → Parts };

    /// What has to be known of a value before it reads.
    ghost can_read: { Self → Type 0 };

    /// An expression of a level, or one that binds more tightly.
    fn expr(&self, alloc: Global, tokens: &mut Tokens<'a>, level: u8) -> Result<Expr, Stop>
        requires { can_read self.now }
        ensures { Reads view_expr ((parsers self.now).expr level tokens.old) result tokens.new };

    /// Specifiers, none or more; storage classes among them or not.
    fn specifiers(
        &self,
        alloc: Global,
        tokens: &mut Tokens<'a>,
        storage: bool,
    ) -> Result<Vec<Specifier>, Stop>
        requires { can_read self.now }
        ensures { Reads view_specifier_list ((parsers self.now).specifiers storage tokens.old) result tokens.new };

    /// A declarator, behind a type specifier or not.
    fn declarator(
        &self,
        alloc: Global,
        tokens: &mut Tokens<'a>,
        place: Place,
        typed: bool,
    ) -> Result<Declared<'a>, Stop>
        requires { can_read self.now }
        ensures { Reads view_declared ((parsers self.now).declarator place typed tokens.old) result tokens.new };
}

/// Reads declaration specifiers, one or more (C90 6.5), with a storage class among them where `storage` allows it; a
/// fault where none stands.
#[tactic(auto, using(crate::proofs::Shown::none_shown), unfolding(pw_parse_grammar::specs::Expressions::some_specifiers))]
pub fn some_specifiers<'a, P: SmallerParts<'a>>(
    alloc: Global,
    parts: &P,
    tokens: &mut Tokens<'a>,
    storage: bool,
) -> Result<Vec<Specifier>, Stop>
    requires { P.can_read parts.now }
    ensures { Reads view_specifier_list (spec.some_specifiers (P.parsers parts.now) storage tokens.old) result tokens.new }
{
    let found = parts.specifiers(alloc, tokens, storage)?;
    if found.is_empty() {
        return Err(Stop::Fault);
    }
    Ok(found)
}

/// An expression of a level, or one that binds more tightly, in a box as soon as it is read.
pub fn boxed_expr<'a, P: SmallerParts<'a>>(
    alloc: Global,
    parts: &P,
    tokens: &mut Tokens<'a>,
    level: u8,
) -> Result<Box<Expr>, Stop>
    requires { P.can_read parts.now }
    ensures { Reads view_boxed ((P.parsers parts.now).expr level tokens.old) result tokens.new }
{
    let expr = parts.expr(alloc, tokens, level)?;
    Ok(Box::new(alloc, expr)?)
}
