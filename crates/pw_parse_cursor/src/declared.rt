//! What a declarator declares.

ghost use Rattle.pw_parse_grammar.specs.Declarators as spec;
ghost use Rattle.pw_parse_cursor.specs.Reads.{Reads, unit};
ghost use Rattle.pw_parse_cursor.specs.CursorViews.{view_name};

use crate::stop::Stop;
use crate::tokens::{Binding, Tokens};
use pw_tree::Declarator;

/// A declarator that was read, and what its reader goes on with.
#[derive(Drop)]
pub struct Declared<'a> {
    pub tree: Declarator,
    /// The declared name.
    pub name: Option<&'a [u8]>,
    /// What the list of parameters nearest to the name declares, nothing where that is an array's
    /// length, and None where nothing stands behind the name.
    pub behind: Option<Vec<Binding<'a>>>,
}

/// Declares a declarator's name, if it has one.
pub fn declare_name<'a>(
    tokens: &mut Tokens<'a>,
    name: Option<&'a [u8]>,
    is_typedef: bool,
) -> Result<(), Stop>
    ensures { Reads unit (spec.declare_name (view_name name.entry) is_typedef tokens.old) result tokens.new }
{
    match name {
        Some(name) => tokens.declare(name, is_typedef),
        None => Ok(()),
    }
}
