//! The interpreter's start: the objects of static lifetime at the start of a run.
#![tactic(auto)]

pub mod items;
pub mod objects;

pub use objects::start_objects;
