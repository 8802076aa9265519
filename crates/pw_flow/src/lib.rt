//! Flow graphs: what a module of a C program becomes before it gets registers. A function is a list of
//! blocks, and a block a list of operations on temporaries, slots and global objects.
#![tactic(auto)]

mod flow;
mod globals;
pub mod names;

pub use flow::{
    BinKind, Block, End, ExtKind, FlowFn, FlowGlobal, FlowModule, Item, Op, UnKind, kind_size,
};
pub use globals::{add_globals, copy_globals};
