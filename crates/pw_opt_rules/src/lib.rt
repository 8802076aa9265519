//! Optimisation of flow graphs in definitions: what is known of temporaries at the points of a function, constants, copies
//! and operations that nothing needs.
#![tactic(auto)]

mod flat;
mod limits;

pub use flat::Flat;
pub use limits::{OPTIMISE_LIMIT, limit_with_name};
