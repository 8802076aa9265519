//! Why a file is not preprocessed.

use pw_cpp_directives::CppKind;
use pw_value::Name;

/// A fault with its file and its line, counted from 1.
#[derive(Debug, Drop)]
pub struct CppFault {
    pub kind: CppKind,
    pub file: Name,
    pub line: u64,
}
