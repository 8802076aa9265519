//! The checker's rules of initialisers (C90 6.5.7).
#![tactic(auto)]

pub mod lists;
pub mod object;
pub mod readings;

pub use object::{Initialised, is_by_bytes, object_rule};
