//! The system's files and standard streams as pw_io's store, source and sink.
//!
//! The adapters stand over the library's readers and writers and over `Folder`: what they take, append and answer is
//! said by what those tell, so that each is held to its meaning in memory. The system's own tell nothing.
#![tactic(auto)]

mod folder;
mod store;
mod streams;

pub use folder::{CurrentFolder, Folder};
pub use store::FileStore;
pub use streams::{StdSink, StdSource};
