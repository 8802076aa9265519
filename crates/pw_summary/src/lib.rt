//! The summary of a module: what the program analyser needs to know of it.
#![tactic(auto)]

pub mod laws;
mod summary;

pub use summary::{
    Defined, FIRST, KIND, NEED_LIMIT, Summary, Used, Uses, VERSION, WEIGHT_BOUND, summary_of,
};
