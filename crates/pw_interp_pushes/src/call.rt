//! A call that is not over.

use pw_interp_calls::Env;
use pw_interp_todo::Todo;

/// A call of a function that is not over: where the function stands, the bound with which it goes on, what it has left to do,
/// of which the last comes first, and the room in bytes that the functions before it take on the stack.
#[derive(Drop)]
pub struct Call<'a> {
    pub env: Env<'a>,
    pub bound: u64,
    pub todo: Vec<Todo<'a>>,
    pub before: u32,
}
