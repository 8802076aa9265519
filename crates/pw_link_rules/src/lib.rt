//! The rules of C by which modules make a program, once for source modules, summaries and objects, each seen as an
//! interface.
#![tactic(auto)]

mod checking;
mod conflicts;
mod duplicates;
mod interface;
pub mod laws;
mod library;
mod mains;
mod names;
mod same;
mod undefined;

pub use checking::check_program;
pub use interface::Interface;
pub use library::built_in;
