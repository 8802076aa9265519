//! The code of a function as words.

use pw_inst::Fix;
use pw_items::Items;

/// The words of a function, before linking, and their relocations in the order of their words.
#[derive(Drop)]
pub struct Code {
    pub words: Items<u32>,
    pub fixes: Items<Fix>,
}
