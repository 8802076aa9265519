//! What the debugger knows of functions.

use pw_db::{Role, Web};
use pw_items::Items;
use pw_value::Name;

/// A function's frame: its bytes, each register that the function saves with its offset from the stack pointer, and
/// the webs in which it is.
#[derive(Drop)]
pub struct FrameInfo {
    pub function: Name,
    pub frame: u32,
    pub saved: Items<(u8, i32)>,
    pub webs: Items<(Web, Role)>,
}

/// No value was found: the return address that lies in no function's words, or at whose function a word is missing.
#[derive(Clone, Copy)]
pub struct Lost(pub u32);
