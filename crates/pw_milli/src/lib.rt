//! The routines that every linked program has behind its own functions: the three functions of the
//! library and the arithmetic that the machine has no instruction for, each as words of the machine.
//!
//! `specs/Words` has the words, `specs/Calls` says what a call of a routine does to the machine, and the
//! laws in `laws` say which routine does what.
#![tactic(auto)]

mod laws;
mod routine;
mod words;

pub use laws::{
    divs_divides, divu_divides, exit_ends, getchar_reads, mul_multiplies, putchar_writes,
    rems_divides, remu_divides,
};
pub use routine::{Routine, library};
