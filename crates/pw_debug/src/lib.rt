//! The debugger: where each global object of a program stands while its functions are active, and its value.
#![tactic(auto)]

mod global;
mod holding;
mod info;
mod turning;
mod words;

pub use global::global_at;
pub use info::{FrameInfo, Lost};
