//! The interpreter of C programs: each expression, statement and call as the definitions of the meaning have it, within
//! a bound. What is left to do stands on the heap, however deep a program nests and calls; a byte of the input is read when
//! the program asks for it, and a byte of the output is put when the program writes it.
#![tactic(auto)]

mod ends;
mod run;
mod turns;

pub use ends::{CEnd, InterpFault};
pub use run::{interpret, interpret_parts};
