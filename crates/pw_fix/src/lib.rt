//! A data-flow solver: lattices, problems over a directed graph, and the least solution; and sets
//! of numbers kept as bits, with their lattice.
#![tactic(auto)]

mod bit_row;
mod bit_rows;
mod graph;
mod lattice;
mod members;
mod problem;
mod rows;
mod solver;
mod words;
mod worklist;

pub use bit_row::BitRow;
pub use bit_rows::BitRows;
pub use graph::Graph;
pub use lattice::Lattice;
pub use members::Members;
pub use problem::Problem;
pub use rows::{Rows, joins_are_unions};
pub use solver::solve;
pub use std::alloc::AllocError as NoMemory;
