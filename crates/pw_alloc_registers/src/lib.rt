//! The registers of temporaries: by weight, the first that a temporary may have and that no other one which interferes has.
#![tactic(auto)]

mod colouring;
mod finding;
mod outline;

pub use finding::find_registers;
pub use outline::outline_of;
