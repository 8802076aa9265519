//! Lowering of expressions, and of the parts of statements that hold them.
#![tactic(auto)]

pub mod blocks;
pub mod cases;
pub mod edges;
pub mod expressions;
pub mod frame;
pub mod initialisers;

pub use expressions::lower;
pub use frame::Frame;
pub use pw_lower_forms::{
    Home, address_of_local, copied, full_name, hidden_name, home, stored, stores, target_of_local,
};
