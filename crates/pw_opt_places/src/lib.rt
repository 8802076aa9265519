//! Places for what is known of temporaries: those that go from block to block have one each, and those that one block has for
//! itself share theirs with those of other blocks.
#![tactic(auto)]

mod homes;
mod places;

pub use places::{Place, Places};
