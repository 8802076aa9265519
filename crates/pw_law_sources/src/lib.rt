//! Laws of stores with C sources: when their files are seen, which faults builds refuse, and what builds leave.
#![tactic(auto)]

mod left;
mod refused;
mod seen;

pub use left::{
    a_seen_build_again_makes_nothing, a_seen_build_keeps_its_objects,
    a_seen_build_leaves_its_program, a_seen_build_leaves_the_whole_program,
    an_edit_that_keeps_phases_keeps_flows, an_edit_that_keeps_seen_flows_makes_nothing,
};
pub use refused::{
    a_text_for_a_fault_is_refused, sources_with_faults_are_refused,
    the_first_refused_module_is_told,
};
pub use seen::{files_are_seen, what_builds_put_is_seen};
