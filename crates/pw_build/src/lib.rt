//! The build of a program from the texts of its modules and what was kept of them, over values.
#![tactic(auto)]

mod fault;
pub mod laws;
mod phases;

pub use fault::{BuildFault, Unbuilt};
pub use phases::first_phases;
pub use pw_law_main::{
    flow_graphs_declare_main, no_refusal_is_want_of_memory, phase_one_is_exact, phase_typed,
};
