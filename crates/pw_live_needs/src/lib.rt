//! How many registers a function needs beside those that every call may change.
#![tactic(auto)]

mod counting;
pub mod laws;
mod needs;

pub use needs::need;
