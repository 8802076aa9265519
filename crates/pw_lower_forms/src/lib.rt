//! Lowering of each form of expression behind the operands that are evaluated before: what the operators, lvalues,
//! assignments and calls make of values that stand in temporaries.
#![tactic(auto)]

pub mod alone;
pub mod calls;
pub mod choices;
pub mod home;
pub mod names;
pub mod stores;
pub mod targets;

pub use home::Home;
pub use names::{full_name, hidden_name};
pub use stores::{Working, copied, stored};
pub use targets::{address_of_local, target_of_local};
