//! The analyser's call graph, made of the summaries of a program's modules, and what it means that a function refers to
//! a global, itself and through calls.
#![tactic(auto)]

mod building;
mod calls;
mod eligible;
mod graph;
mod homes;
mod places;
mod references;
mod views;

pub use building::build_graph;
pub use calls::numbers;
pub use eligible::{escaped_names, is_among, taken_names};
pub use graph::{CallGraph, RefSets};
