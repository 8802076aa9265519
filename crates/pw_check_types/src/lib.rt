//! The checker's tests of types: what a type is, its copies and qualifiers, compatible and composite types (C90
//! 6.1.2.6, 6.5.3).
#![tactic(auto)]

pub mod compatibility;
pub mod composites;
pub mod copies;
pub mod kinds;
pub mod objects;
pub mod pointers;
pub mod qualifiers;
pub mod same;

pub use compatibility::{compatible, compatible_parameters, compatible_plainly, compatible_types};
pub use composites::{composite, composite_type};
pub use copies::{boxed_copy, copy_qtype, copy_qtypes, copy_type, unqualified};
pub use kinds::{
    count_of_types, is_character_array, is_character_kind, is_kind, is_open_array, is_record_of,
    kind_in, plain, same_kind,
};
pub use objects::{
    holds_const, innermost, is_complete, is_const_object, is_free_of_const, is_volatile_object,
};
pub use pointers::{
    pointee, points_to_function, points_to_object, points_to_record, points_to_void, signature_in,
};
pub use pw_types::{is_array, is_function, is_integral, is_pointer, is_record, is_scalar, is_void};
pub use qualifiers::{qualified_within, qualify};
pub use same::{same_qualified, same_type, same_types};
