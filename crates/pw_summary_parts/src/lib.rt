//! The parts of a summary file, read and written: its globals, and what each function uses.
#![tactic(auto)]

mod names;
mod reading;
mod writing;

pub use names::{add_all_uses, add_globals};
pub use reading::{read_all_uses, read_global_list};
pub use writing::{push_all_uses, push_global_list};
