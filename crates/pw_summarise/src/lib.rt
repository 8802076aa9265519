//! The maker of summaries: the summary of a module from its flow graph.
#![tactic(auto)]

pub mod laws;
mod lists;
mod making;
mod names;
mod shapes;
mod taken;
mod uses;
mod weights;

pub use making::{Interface, interface_of, summarise};
pub use weights::{DEEPEST, WEIGHT_LIMIT, limits_of_weights};
