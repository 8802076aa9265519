//! Selection: from placed graphs to lines of instructions.
#![tactic(auto)]

mod bounds;
mod selecting;
mod webs;

pub use selecting::select;
