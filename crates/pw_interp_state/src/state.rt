//! The state of a run.

ghost use Rattle.std.specs.Prelude.{◌≡◌, ◌+◌, not, nat_lt};

use crate::objects::Objects;

/// What changes in a run but for its input and output: the objects; and the room in bytes that the active functions take on
/// the stack.
#[derive(Drop)]
pub struct State {
    pub objects: Objects,
    pub used: u32,
}

/// Whether a function's frame has room on the stack beside the active functions.
pub fn has_room(state: &State, frame: u32, stack: u32) -> bool
    ensures { result ≡ not (nat_lt stack (frame + state.now.used)) }
{
    u64::from(frame) + u64::from(state.used) <= u64::from(stack)
}
