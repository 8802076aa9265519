//! Directives of the preprocessor (ISO/IEC 9899:1990, 6.8): what each does to the macros and the open groups, and whether a condition
//! holds.
#![tactic(auto)]

mod condition;
mod directive;
mod fault;
mod groups;
mod laws;

pub use condition::Digits;
pub use directive::{Directive, Fault, Standing, faulty, limit, of_expansion};
pub use fault::{CppKind, CppWhich};
pub use groups::{Section, is_opening, is_turn};
pub use laws::one_effect;
