//! The interpreter's steps of statements: what is left of a part of a statement, behind a part that was done, and behind the
//! value of an expression.
#![tactic(auto)]

mod behind;
mod forms;
mod initialisers;
mod uses;

pub use behind::remainder;
pub use forms::begin;
pub use uses::use_value;
