//! The roots of functions: which function each one works for alone.
#![tactic(auto)]

mod inner;
mod roots;
mod rounds;
mod saving;

pub use roots::find_roots;
pub use saving::{free, greatest_needs, saved};
