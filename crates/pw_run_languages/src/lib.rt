//! What the runs of flow modules, of programs under directives, of lines and of linked programs are, and what the
//! layers between them owe.
#![tactic(auto)]

pub mod machine_calls;
pub mod notes;
pub mod run_lines;

pub use machine_calls::{noted_calls_are_its_own, traces_tell_what_is_noted};
pub use notes::traffic_rests_on_relations;
pub use run_lines::late_logs_compose;
