//! The checker's facts of lists of specifiers (C90 6.5.1 to 6.5.3): what they have, gathered one by one, and what they
//! say.
#![tactic(auto)]

pub mod keywords;
pub mod specifiers;

pub use specifiers::{
    gather_qualifier, gather_storage, gather_type, gather_word, nothing_gathered, specified,
};
