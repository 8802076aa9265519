//! Laws of the first phase: what a module's flow graph declares.
#![tactic(auto)]

mod declaring;

pub use declaring::flow_graphs_declare_main;
pub use pw_phase_one::laws::{no_refusal_is_want_of_memory, phase_one_is_exact};
pub use pw_phase_one::{phase_one, phase_typed};
