//! The parser of C90's declarations and initializers (ISO/IEC 9899:1990, 6.5, 6.5.7).
#![tactic(auto)]

mod decl;
mod parts;

pub use decl::{declaration_with, declarations, init_of};
pub use parts::{DeclParts, InitParts};
