//! The machine: a simulator of 26 instructions of PA-RISC 1.1 over 64 MiB of memory, one source of
//! input and one sink of output.
//!
//! `specs/` says what the machine is: its state (`Core`), the effect of what an instruction does (`Effect`),
//! steps and runs (`Run`), the start of an image's program (`Start`) and what `run` answers (`Stops`).
#![tactic(auto)]

mod bits;
mod computing;
mod ends;
mod execute;
mod laws;
mod machine;
mod processor;
mod run;
mod start;

pub use ends::{End, Halt, Stop};
pub use laws::{data_bytes, overwritten_words, runs_add_up, runs_go_on, text_words};
pub use machine::Machine;
pub use pw_image::LoadError;
