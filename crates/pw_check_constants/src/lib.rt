//! The checker's constant expressions, null pointer constants and address constants (C90 6.4), told from typed trees.
#![tactic(auto)]

pub mod constancy;
pub mod constants;
pub mod frames;
pub mod moves;
pub mod nulls;
pub mod place;
pub mod places;
pub mod words;

pub use constancy::Constancy;
pub use constants::{constant_of, constant_value};
pub use nulls::{is_null_constant, is_null_pointer, is_zero_constant};
pub use place::{Asked, Base, Place};
pub use places::{address_of, place_of, told_size};
