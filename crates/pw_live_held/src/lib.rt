//! Which temporaries of a function are held over a call, and what stands before its points.
#![tactic(auto)]

mod held;
mod liveness;
mod points;

pub use held::is_held;
pub use liveness::{Liveness, find_liveness};
