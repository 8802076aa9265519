//! The checker's rules of function definitions but for their statements (C90 6.7.1): what stands before the body, the
//! locals, and the limits.
#![tactic(auto)]

mod heads;
mod locals;
mod measures;

pub use heads::{Head, head_declared, head_meets, head_rule};
pub use locals::{copy_locals, numbers_below, parameter_locals, result_of};
pub use measures::measured_rule;
