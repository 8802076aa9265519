//! The parser of C90's specifiers (ISO/IEC 9899:1990, 6.5.1 to 6.5.3, 6.5.6).
#![tactic(auto)]

mod specifier;

pub use specifier::specifiers_of;
