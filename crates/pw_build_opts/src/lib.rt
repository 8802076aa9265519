//! How a program is built and run: what goes from the words of a command line to the analyser, the linker and the machine.
#![tactic(auto)]

mod opts;

pub use opts::{Opts, RunOpts};
