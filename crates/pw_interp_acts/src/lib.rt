//! The interpreter's single acts on the state of a run: operators and accesses at a node, places of names, and room on
//! the stack.
#![tactic(auto)]

pub mod calls;
pub mod nodes;
pub mod places;
pub mod results;
pub mod updates;

pub use calls::take_room;
pub use nodes::{advance, binary, convert, fetch, load, put, settle, truth, unary};
pub use places::{function_of, local_place, symbol_place};
pub use results::{cast, used, value_at};
pub use updates::{assigned, old_value, step, update};
