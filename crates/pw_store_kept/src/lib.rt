//! The store's kept objects: code that reads the objects that are kept of modules, makes the files of a program,
//! compares them with those that are kept, and puts what changed.
#![tactic(auto)]

mod files;
mod kept;
mod prepared;
mod puts;

pub use files::{FreshFiles, ProgramFiles, files_of};
pub use kept::read_kept;
pub use prepared::{Prepared, compared};
pub use puts::put_changed;
