//! The analyser's reference sets: the globals to which each function of a program refers, itself, through its callers
//! and through its callees.
#![tactic(auto)]

mod cycles;
mod flows;

pub use cycles::in_cycles;
pub use flows::{join, ref_sets};
