//! Where each temporary of a function is live: the spans of points.
#![tactic(auto)]

pub mod laws;
mod spans;
mod walk;

pub use spans::{Spans, find_spans};
