//! Functions of a C program, as calls call them: which one a call calls, what those of the library do, where one begins, and
//! the objects of parameters and locals, with what is put into them.
#![tactic(auto)]

mod callees;
mod library;
mod locals;
mod parameters;
mod values;

pub use callees::callee_of;
pub use library::call_library;
pub use locals::{end_parameters, make_local, make_locals, set_number};
pub use parameters::{outermost, set_parameters};
pub use values::{initialise_bytes, set_local};
