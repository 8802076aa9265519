//! Laws of builds: what a build leaves, and what builds are refused for.
#![tactic(auto)]

mod left;
mod refusals;

pub use left::{
    a_build_again_makes_nothing, a_build_keeps_its_objects, a_build_leaves_its_program,
    a_build_leaves_the_whole_program, a_text_with_the_same_flow_keeps_flows,
    an_edit_that_keeps_flows_makes_nothing,
};
pub use refusals::{
    a_seen_store_that_can_be_built_is_built, a_store_is_built_exactly_where_it_can_be,
    a_store_that_can_be_built_is_built, accepted_modules_are_built, builds_are_complete,
    first_phases_declare_main, the_command_is_complete, what_is_built_can_be_built,
};
