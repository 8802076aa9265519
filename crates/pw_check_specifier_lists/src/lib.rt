//! The checker's rules of lists of specifiers with the structures, unions and enumerations in them (C90 6.5.1 to
//! 6.5.3), which take the checkers of the phrases within.
#![tactic(auto)]

mod enumerations;
mod records;
mod specifiers;

pub use specifiers::specifiers_of;
