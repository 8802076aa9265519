//! The analyser's webs: the parts of a program in which a global may live in one register.
#![tactic(auto)]

mod finding;
pub mod laws;
mod neighbours;
mod parts;
mod region;
mod walks;
mod web;

pub use finding::{interfere, webs};
pub use neighbours::callers_of;
pub use web::RawWeb;
