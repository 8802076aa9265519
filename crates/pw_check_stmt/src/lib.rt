//! The checker's rules of statements (C90 6.6) by their forms, which take the checkers of the phrases within.
#![tactic(auto)]

mod stmt;

pub use stmt::{block_rule, stmt_of};
