//! Sets of registers: as the bits of a word, and of many points, from which those of neighbouring points are joined in few
//! steps.
#![tactic(auto)]

mod masks;
mod sets;

pub use masks::{both, has_register, with_register};
pub use sets::PointSets;
