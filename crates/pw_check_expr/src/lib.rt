//! The checker's rules of expressions by their forms (C90 6.3, 6.4, 6.5.5), which take the checkers of the phrases
//! within.
#![tactic(auto)]

mod chains;
mod expr;

pub use expr::expr_of;
