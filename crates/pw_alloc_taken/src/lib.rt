//! Which registers are taken for a temporary, since one that interferes has them.
#![tactic(auto)]

mod facts;
mod given;
mod occupied;

pub use facts::{Facts, find_facts};
pub use given::{Given, give, taken};
