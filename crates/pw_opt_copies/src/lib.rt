//! Copies in flow graphs: temporaries that hold on every path what one other temporary holds.
#![tactic(auto)]

mod copies;
mod originals;

pub use originals::Originals;
