//! What checking promises of its result: its typed trees are well typed and keep the limits, and names in them
//! denote what they may.
#![tactic(auto)]

pub mod designators;
pub mod limits;
mod numbers;
pub mod well_typed;

pub use designators::{
    accepted_functions_are_no_objects, accepted_names_of_objects_are_no_functions,
};
pub use limits::{
    accepted_bodies_are_bounded, accepted_bodies_keep_limits, accepted_functions_keep_limits,
    accepted_initialisers_have_parts, accepted_is_within, accepted_items_are_not_empty,
    accepted_locals_are_copied, accepted_names_are_identifiers, accepted_records_are_within,
    accepted_strings_are_short, strings_of_texts,
};
pub use numbers::{accepted_bodies_have_words, constants_of_words_are_words, numbers_of_objects};
pub use well_typed::{
    accepted_addresses_lead_inside, accepted_bodies_are_well_typed, accepted_functions_are_typed,
    accepted_is_well_typed, accepted_labels_are_apart, accepted_locals_are_objects,
    accepted_names_are_apart, accepted_names_are_declared, accepted_objects_are_apart,
    accepted_objects_are_well_typed, accepted_objects_have_sizes, accepted_records_are_laid,
    expressions_are_well_typed, start_is_lawful,
};
