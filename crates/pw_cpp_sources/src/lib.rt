//! The files of a run of the preprocessor as one source, the names of headers, and the rows of the output.
#![tactic(auto)]

mod header;
mod rows;
mod source;

pub use header::{DEPTH_LIMIT, HEADER_NAME_LIMIT, is_header};
pub use rows::put_rows;
pub use source::{Place, Source, digits, source_of};
