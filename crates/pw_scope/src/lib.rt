//! The names in scope while a C text is read from front to back (ISO/IEC 9899:1990 6.1.2.1).
#![tactic(auto)]

mod entry;
mod laws;
mod scopes;

pub use laws::{
    declared_is_visible, inner_hides_outer, leaving_restores, nothing_at_first, others_stay,
};
pub use scopes::Scopes;
pub use std::alloc::AllocError as NoMemory;
