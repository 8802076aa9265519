//! The C sources and the headers of a store, and what the preprocessor makes of each source.
#![tactic(auto)]

mod compiled;
mod headers;
mod names;
mod outputs;
mod source;
mod sources;
mod sums;

pub use compiled::{Compiled, Outcomes};
pub use headers::read_headers;
pub use names::{SOURCE_ENDING, is_source_file, is_text_file, source_name};
pub use outputs::preprocess_source;
pub use sources::{compile_sources, read_bytes};
pub use sums::sum_of;
