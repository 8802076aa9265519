//! Laws of builds, of sessions and of `bench`: over genuine kept objects they are full builds.
#![tactic(auto)]

mod builds;
mod history;
mod sessions;

pub use builds::builds_are_full;
pub use history::histories_build_in_full;
pub use pw_law_build::a_store_is_built_exactly_where_it_can_be;
pub use pw_law_meaning::full_builds_have_a_program;
pub use pw_session::{
    bench, build_modules, genuine_files_keep_genuine, genuine_objects_are_seen, run_session,
};
pub use sessions::{bench_builds_in_full, sessions_build_in_full};
