//! The checker's names with linkage (C90 6.1.2.2): what a declaration makes of its name, and what else the name may be.
#![tactic(auto)]

pub mod declare;
mod define;
mod meanings;

pub use declare::{Asking, declare_linked, is_internal_by, note_here, note_linked};
pub use define::{
    define_function, define_object, define_tentatively, initialise_linked, symbol_at,
    symbol_of_linked,
};
pub use meanings::{fitting, fresh_name, linkage_point, undefined_yet};
