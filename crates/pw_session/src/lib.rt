//! Sessions: the lines of a script, obeyed one behind another over the files of a store; and `bench`, which builds and
//! runs a made program.
#![tactic(auto)]

mod benching;
mod laws;
mod lines;
mod runs;
mod session;

pub use benching::{BENCH_FUNCTIONS, BENCH_MODULES, bench, counts_of_the_bench};
pub use laws::texts_are_no_objects;
pub use pw_build_files::{
    build_modules, builds_leave_genuine_objects, genuine_files_keep_genuine,
    genuine_objects_are_seen, genuine_objects_give_the_full_image, texts_have_one_image,
};
pub use session::{LINES_LIMIT, limit_of_a_session, run_session};
