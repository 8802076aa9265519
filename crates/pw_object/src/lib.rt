//! The object file: the functions of a module as words, with the places that a linker fills, read and written.
#![tactic(auto)]

pub mod functions;
pub mod laws;
mod names;
mod object;
mod reading;
pub mod writing;

pub use functions::ObjectFn;
pub use names::add_fixes;
pub use object::{Object, VERSION};
pub use pw_inst::{Fix, FixKind, Symbol};
pub use reading::{KIND, read};
pub use writing::write;
