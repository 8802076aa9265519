//! The static semantics of C as rules: the constraints of ISO C90 6.1 to 6.7, and the typed tree of a module that
//! meets them. Definitions and their laws; the code that follows them stands in the crates above.
#![tactic(auto)]

mod laws;
mod names;

pub use laws::{
    assignable_is_tested, checks_is_exact, compatible_is_tested, linkage_is_tested,
    modifiable_is_tested, null_constant_is_tested, samples,
};
pub use names::{Entry, Slot, Tag, TagEntry};
