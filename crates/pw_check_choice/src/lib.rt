//! The checker's rules of `if` and `switch` (C90 6.6.4), which take the checkers of the phrases within.
#![tactic(auto)]

mod branches;

pub use branches::{boxed_stmt, if_stmt, switch_stmt};
