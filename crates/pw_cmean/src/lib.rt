//! The meaning of C: what a run of an accepted program does, in definitions over typed trees (`specs/`) that know no
//! flow graph, register or file. The code here is what the layers above share: the names of the undefined operations.
#![tactic(auto)]

pub mod laws;
mod undefined;

pub use undefined::{Undef, undefined_text};
