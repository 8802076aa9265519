//! The knot of the parser's expressions, specifiers and declarators (ISO/IEC 9899:1990, 6.3 to 6.5.6), which hold one
//! another: code that calls itself, to a depth that the count of tokens bounds.
#![tactic(auto)]

mod knot;

pub use knot::{read_declarator, read_expr, read_specifiers};
pub use pw_parse_cursor::{Declared, declare_name};
