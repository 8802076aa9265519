//! The command `build` over the files of a store: the files of a program, what is put, and the lines of the report.
#![tactic(auto)]

mod building;
mod driving;
mod laws;
mod prepared;
mod program;
mod report;

pub use building::build;
pub use driving::{answer_of, build_modules, build_uncounted, put_report};
pub use laws::{
    a_store_has_one_build, a_store_is_built_in_one_way, builds_leave_genuine_objects,
    genuine_files_keep_genuine, genuine_objects_are_seen, genuine_objects_give_the_full_build,
    genuine_objects_give_the_full_image, kept_objects_are_seen, texts_have_one_image,
};
pub use program::{modules_to_build, program_of};
pub use pw_build::{
    BuildFault, Unbuilt, flow_graphs_declare_main, laws as build_laws, phase_typed,
};
pub use report::{Report, report_lines};
