//! The commands `analyse`, `link`, `run`, `list` and `db` over the files of a store.
#![tactic(auto)]

mod analysing;
mod kept;
mod linking;
mod machine_run;
mod needed;
mod running;
mod showing;

pub use analysing::analyse_modules;
pub use linking::{link_modules, put_file};
pub use machine_run::{answer_of_stop, run_machine};
pub use needed::{read_needed, refused};
pub use running::run_image;
pub use showing::{list_image, show_database};
