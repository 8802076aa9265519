//! The writer of syntax trees: code that spells a tree as the tokens that C90's grammar writes it with.
#![tactic(auto)]

mod decl;
mod declarator;
mod expr;
mod module;
mod specifiers;
mod spelled;
mod stmt;
mod words;

pub use module::spell;
pub use spelled::{NoMemory, Spelled};
