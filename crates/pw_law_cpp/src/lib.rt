//! Laws of the preprocessor.
#![tactic(auto)]

mod laws;

pub use laws::one_output;
