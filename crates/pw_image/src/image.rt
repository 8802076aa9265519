//! The image of a linked program.

ghost use Rattle.std.specs.Prelude.{◌≡◌};
ghost use Rattle.pw_image.specs.Image.{data_start};

use pw_items::Items;
use pw_value::limits::TEXT_START;
use pw_value::{Name, round8};

/// Bytes at an offset from the start of the data.
#[derive(Drop)]
pub struct DataItem {
    pub offset: u32,
    pub bytes: Items<u8>,
}

/// What a machine starts with. The text has its words from the address `TEXT_START` on, and the data start
/// behind it at the next multiple of 8; what no item of the data fills is 0.
#[derive(Drop)]
pub struct Memory {
    /// The address at which the run starts.
    pub entry: u32,
    /// The bytes of the stack.
    pub stack: u32,
    /// The address behind the stack.
    pub stack_end: u32,
    pub words: Items<u32>,
    /// The bytes of the data.
    pub data_size: u32,
    pub items: Items<DataItem>,
}

/// The address at which the data start behind a text of so many words.
pub fn data_start(words: u32) -> u64
    ensures { result ≡ data_start words }
{
    round8(u64::from(TEXT_START) + 4 * u64::from(words))
}

/// Where a function stands, and the bytes of its frame.
#[derive(Drop)]
pub struct Function {
    pub name: Name,
    pub address: u32,
    pub frame: u32,
}

/// Where an object with static lifetime stands.
#[derive(Drop)]
pub struct GlobalObject {
    pub name: Name,
    pub address: u32,
}

/// A program's memory, and the map of its functions and global objects in the order of linking.
#[derive(Drop)]
pub struct Image {
    pub memory: Memory,
    pub functions: Items<Function>,
    pub globals: Items<GlobalObject>,
}
