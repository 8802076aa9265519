//! Functions whose temporaries have places.

use pw_items::Items;
use pw_webflow::WebFn;

/// Where a temporary stands: in the frame, at an offset from the stack pointer, or in a register.
#[derive(Clone, Copy)]
pub enum Place {
    Slot(i32),
    Reg(u8),
}

/// Where nothing else is said, the register that holds 0.
impl Default for Place {
    fn default() -> Place {
        Place::Reg(0)
    }
}

/// A function with the places of its temporaries, the registers that it saves, in rising order, and the
/// size of its frame in bytes.
#[derive(Drop)]
pub struct Located {
    pub body: WebFn,
    pub places: Items<Place>,
    pub saved: Items<u8>,
    pub frame: u32,
}
