//! The preprocessor (ISO/IEC 9899:1990, 6.8): from a file and the headers beside it to one text.
#![tactic(auto)]

mod fault;
mod file;
mod passing;
mod reader;
mod way;
mod whole;

pub use fault::CppFault;
pub use pw_cpp_directives::{CppKind, CppWhich};
pub use pw_cpp_sources::{DEPTH_LIMIT, HEADER_NAME_LIMIT, is_header};
pub use whole::preprocess;
