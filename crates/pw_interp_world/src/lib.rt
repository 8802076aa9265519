//! A C program as the interpreter runs it: its functions, its layouts, and what its names denote.
#![tactic(auto)]

pub mod globals;
pub mod layouts;
pub mod lists;
pub mod lookups;
pub mod numbers;
pub mod program;
pub mod world;

pub use globals::global_names;
pub use layouts::{element_layout, exact_layout, put_value};
pub use numbers::function_numbers;
pub use program::{Body, Callable, LibraryFunction, Part, callables, plain_shape};
pub use world::World;
