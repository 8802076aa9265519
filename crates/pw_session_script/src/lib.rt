//! The script of a session: its lines, read from an input.
#![tactic(auto)]

mod command;
mod limits;
mod line;
mod reading;

pub use limits::{LINE_LIMIT, PUT_LIMIT, RUN_LIMIT, limits_of_a_script};
pub use line::{Line, ScriptFault, TakenLine};
pub use reading::next_line;
