//! Functions without their dead operations.
#![tactic(auto)]

mod dead;
mod marks;

pub use dead::remove_dead;
