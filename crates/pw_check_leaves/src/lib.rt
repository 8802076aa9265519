//! The checker's rules that hold no other phrase: names, constants, strings, enumerations, type names and parameters.
#![tactic(auto)]

pub mod constants;
pub mod enumerations;
pub mod names;
pub mod parameters;
pub mod primary;
pub mod strings;

pub use constants::{enumerator_value, length_rule};
pub use enumerations::{enumerating_rule, enumeration_rule, enumerator_name, enumerator_rule};
pub use names::{int_type, named_type, typedef_rule};
pub use parameters::{bindings_rule, parameter_rule, parameter_storage};
pub use primary::{character_rule, identifier_rule, number_rule};
pub use strings::{string_bytes, string_rule, string_type};
