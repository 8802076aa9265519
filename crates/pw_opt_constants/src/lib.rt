//! Constants of flow graphs: temporaries that hold one word on every path.
#![tactic(auto)]

mod constants;

pub use constants::Constants;
