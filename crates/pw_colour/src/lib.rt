//! The analyser: registers for webs, and the database of directives that they give.
#![tactic(auto)]

mod analysing;
mod colouring;
mod directing;
pub mod laws;
mod ranking;

pub use analysing::analyse;
