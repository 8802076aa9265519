//! The files of a store as a build sees them: the modules, with what comes of each C source as its module's text, and their names.
#![tactic(auto)]

mod bytes;
mod laws;
mod modules;
mod named;
mod place;
mod plain;

pub use bytes::text_bytes;
pub use laws::{
    built_files_are_seen, files_are_seen_in_one_way, sources_come_to_one, texts_are_not_built,
};
pub use modules::{seen_modules, shown_text};
pub use named::module_names;
pub use pw_store_modules::TEXT_READ;
pub use pw_store_sources::{
    Compiled, SOURCE_ENDING, is_source_file, is_text_file, preprocess_source, read_headers,
    source_name,
};
