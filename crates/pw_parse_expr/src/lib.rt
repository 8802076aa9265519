//! The parser of C90's expressions (ISO/IEC 9899:1990, 6.3, 6.4, 6.5.5).
#![tactic(auto)]

mod expr;

pub use expr::expr_of;
