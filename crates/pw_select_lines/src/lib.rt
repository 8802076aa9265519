//! The lines of single operations of the flow graph, and what goes from and to registers.
#![tactic(auto)]

mod arithmetic;
mod operations;
mod registers;

pub use arithmetic::{extension_word, put_binary, unary_word};
pub use operations::put_web_op;
pub use registers::{
    load_scalar, place_of, put, put_address, put_constant, put_copy, put_frame_address, put_load,
    put_loaded, put_operand, put_read, put_result, put_sign, put_store, put_write, result_register,
    store_scalar,
};
