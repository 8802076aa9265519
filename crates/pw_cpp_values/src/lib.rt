//! The numbers of `#if` (ISO/IEC 9899:1990, 6.8.1): what constants stand for, and the operators on them.
#![tactic(auto)]

mod arithmetic;
mod operand;

pub use arithmetic::{Number, binary, conditional, logic, unary};
pub use operand::operand_of;
