//! The store's modules: which files they are, their order, and their texts.
#![tactic(auto)]

mod few;
mod file_names;
mod laws;
mod limits;
mod modules;
mod sources;

pub use few::{ModulesFault, check_count};
pub use file_names::{
    DATABASE_NAME, FLOW_ENDING, IMAGE_NAME, OBJECT_ENDING, SUMMARY_ENDING, TEXT_ENDING, file_of,
    module_file, names_of_files,
};
pub use laws::modules_are_exact;
pub use limits::{MODULE_NAME_LIMIT, TEXT_READ, limits_of_modules};
pub use modules::{Module, is_module_file, is_module_name, module_files, stem};
pub use sources::read_sources;
