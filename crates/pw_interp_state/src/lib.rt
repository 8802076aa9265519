//! What changes in a run of a C program: its objects, the operators, conversions and accesses on them, and room.
#![tactic(auto)]

pub mod access;
pub mod bytes;
pub mod category;
pub mod fault;
pub mod findings;
pub mod moves;
pub mod numbers;
pub mod objects;
pub mod operator_laws;
pub mod operators;
pub mod pointers;
pub mod state;
pub mod step_laws;
pub mod writes;

pub use access::{fetch, load};
pub use bytes::{copied_from, encoded, four_from, write_bytes};
pub use category::{Category, Purpose, categorise};
pub use fault::Fault;
pub use moves::Move;
pub use objects::Objects;
pub use operators::{binary, convert, truth, unary};
pub use pointers::advance;
pub use state::{State, has_room};
pub use writes::{copy, put, store};
