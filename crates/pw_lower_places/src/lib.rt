//! Lowering of objects, and of locals with their places.
#![tactic(auto)]

pub mod addressed;
pub mod objects;
pub mod places;

pub use objects::{has_main, lower_declared, lower_globals, start_function};
pub use places::{places_of, slots_of, store_parameters, temps_of};
