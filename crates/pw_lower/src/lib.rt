//! Lowering in definitions, the flow graph of a module's typed tree as a plain function, and the steps of code by which
//! a flow graph is made.
#![tactic(auto)]

pub mod code;
pub mod operators;
pub mod place;

pub use code::{Code, Numbered};
pub use operators::Side;
pub use place::{LocalPlace, Target, Ways};
