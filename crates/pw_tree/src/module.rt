//! Translation units (C90 6.7).

use crate::decl::Decl;
use crate::expr::{Declarator, Specifier};
use crate::stmt::Block;

/// The definition of a function (C90 6.7.1): it may have no specifiers, and declarations may stand before its body.
#[derive(Drop)]
pub struct Function {
    pub specifiers: Vec<Specifier>,
    pub declarator: Declarator,
    pub declarations: Vec<Decl>,
    pub body: Block,
}

/// An external declaration (C90 6.7).
#[derive(Drop)]
pub enum External {
    /// A function's definition (6.7.1).
    Function(Function),
    /// A declaration (6.7.2).
    Declaration(Decl),
}

/// A module: the external declarations of a translation unit, in the source's order.
#[derive(Drop)]
pub struct Module {
    pub externals: Vec<External>,
}
