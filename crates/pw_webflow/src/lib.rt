//! Direction: a flow graph whose accesses of directed globals go to their registers.
#![tactic(auto)]

mod copying;
mod directing;
pub mod laws;
mod web;

pub use directing::direct;
pub use web::{WebBlock, WebFn, WebOp};
