//! The checker's names of declarations: what a declaration declares, and what it asks of its name and its type (C90
//! 6.5, 6.7.2).
#![tactic(auto)]

pub mod points;
pub mod sorts;

pub use points::{completed_rule, fitting_rule, name_rule};
pub use sorts::{
    Sort, asking_of, is_auto, is_extern, is_register, is_static, is_tentative, sort_of,
};
