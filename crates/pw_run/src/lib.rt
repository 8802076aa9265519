//! Runs as they are seen from outside, and refinement between them.
#![tactic(auto)]

mod laws;

pub use laws::{Likeness, refinement_composes};
