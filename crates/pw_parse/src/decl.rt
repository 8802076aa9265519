//! The parsers of the parts of declarations, to a depth.

use crate::init::init;
use pw_parse_cursor::{Stop, Tokens};
use pw_parse_decl::DeclParts;
use pw_parse_grammar::Place;
use pw_parse_knot::{Declared, read_declarator, read_specifiers};
use pw_tree::{Init, Specifier};
use std::alloc::Global;

/// The parts of each hold one another to this depth.
#[derive(Clone, Copy)]
pub struct ToDepth(pub usize);

impl<'a> DeclParts<'a> for ToDepth {
    ghost limit = { λ d. d.0 };

    fn specifiers(
        &self,
        alloc: Global,
        tokens: &mut Tokens<'a>,
        storage: bool,
    ) -> Result<Vec<Specifier>, Stop> {
        read_specifiers(alloc, tokens, self.0, storage)
    }

    fn declarator(
        &self,
        alloc: Global,
        tokens: &mut Tokens<'a>,
        place: Place,
        typed: bool,
    ) -> Result<Declared<'a>, Stop> {
        read_declarator(alloc, tokens, self.0, place, typed)
    }

    fn init(&self, alloc: Global, tokens: &mut Tokens<'a>) -> Result<Init, Stop> {
        init(alloc, tokens, self.0, self.0)
    }
}
