//! The parser of a module (ISO/IEC 9899:1990, 6.3 to 6.7): from its tokens to its syntax tree, or the token at which
//! they leave the grammar.
#![tactic(auto)]

mod decl;
mod init;
mod module;
mod parser;
mod stmt;

pub use parser::{ParseFault, parse};
