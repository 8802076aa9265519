//! Operations and the ends of blocks in files: read and written.
#![tactic(auto)]

mod choices;
mod codes;
mod end_reading;
mod end_writing;
pub mod laws;
mod op_reading;
mod op_writing;
mod parts;

pub use choices::read_one_of;
pub use codes::{EndCode, OpCode};
pub use end_reading::read_end;
pub use end_writing::push_end;
pub use op_reading::{Counts, read_ops};
pub use op_writing::push_ops;
pub use parts::{ABSENT, read_below, read_few, read_named};
