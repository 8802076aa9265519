//! The weights of temporaries, and their order by weight.
#![tactic(auto)]

mod order;
mod weights;

pub use order::ordered;
