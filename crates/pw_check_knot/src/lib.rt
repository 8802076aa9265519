//! The knot of the checker's expressions, specifiers and declarators (C90 6.3 to 6.5.6), which hold one another: code
//! that calls itself, to a depth.
#![tactic(auto)]

mod knot;

pub use knot::{Knot, check_declarator, check_expr, check_specifiers};
