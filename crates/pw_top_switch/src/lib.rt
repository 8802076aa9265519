//! The switch of a command line, and the other words.
#![tactic(auto)]

mod switch;

pub use switch::{Line, line_of};
