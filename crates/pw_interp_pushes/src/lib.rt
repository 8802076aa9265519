//! What the interpreter's steps put on the list of what a call has left to do, and take from it.
#![tactic(auto)]

mod arguments;
mod blocks;
mod call;
mod pushes;
mod settling;

pub use arguments::{push_arguments, take_arguments};
pub use blocks::{end_local, open_block};
pub use call::Call;
pub use pushes::{lower, push_going, push_next};
pub use settling::{given, transferred};
