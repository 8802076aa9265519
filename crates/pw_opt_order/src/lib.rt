//! The order of what is known, and transfers that rise in it.
#![tactic(auto)]

mod laws;

pub use laws::{rewritings_read_operands, transfers_rise};
