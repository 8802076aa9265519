//! The values that the whole compiler speaks of: machine words and their arithmetic, names, shapes of
//! types, what a C program's expressions and objects hold, limits, and faults that several layers answer.
#![tactic(auto)]

pub mod caps;
pub mod codec;
pub mod decimal;
pub mod fault;
pub mod laws;
pub mod limits;
pub mod name;
pub mod program_names;
pub mod rounding;
pub mod shape;
pub mod value;
pub mod words;

pub use caps::{cap, clip};
pub use codec::{decode, decode_pointer, encode};
pub use decimal::push_decimal;
pub use fault::{FileError, LinkFault, What};
pub use name::{Name, NameError};
pub use rounding::{round8, slot_room, stack_start};
pub use shape::{Shape, agree, copied_shapes};
pub use std::alloc::AllocError as NoMemory;
pub use value::{Byte, Kind, Pointer, Value};
pub use words::WordFault;

/// A word of the machine: 32 bits, read as a number from 0 to 2^32 - 1.
pub type Word = u32;
