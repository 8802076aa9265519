//! Sets of names that share what they have in common, each known by a number.
#![tactic(auto)]

mod sets;

pub use sets::Sets;
