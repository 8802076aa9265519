//! The checker's rules of declarators and lists of parameters (C90 6.5.4, 6.5.5), which take the checkers of the
//! phrases within.
#![tactic(auto)]

mod declarators;
mod parameters;
pub mod steps;

pub use declarators::declarator_of;
