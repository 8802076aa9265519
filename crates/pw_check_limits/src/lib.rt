//! The checker's types of declarators: what declarators make of a type, and the limits on types and names that are
//! declared (C90 5.2.4.1, 6.5.4).
#![tactic(auto)]

pub mod completeness;
pub mod derivations;
pub mod limits;

pub use completeness::{completed, spot_of};
pub use derivations::{
    DERIVATION_LIMIT, built, limit_of_a_declarator, step_point, step_type, type_declared,
};
pub use limits::{
    IDENTIFIER_LIMIT, limit_of_an_identifier, long_shape_of, many_parameters, name_within,
    type_within,
};
