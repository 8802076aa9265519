//! What is left of a run of a C program, kept as lists on the heap: what is asked and what follows behind it, as the
//! meaning of C has it.
#![tactic(auto)]

pub mod asked;
pub mod flow;
pub mod needs;
pub mod statements;
pub mod todo;

pub use asked::{Asked, Callee, Next, Operand};
pub use flow::{Entry, Flow};
pub use needs::{need, tested};
pub use statements::{Doing, Done, Going, Part, Purpose, Remainder, Turn, Use};
pub use todo::{Control, Todo, Transfer};
