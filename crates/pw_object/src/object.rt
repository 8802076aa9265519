//! The object file of a module.

use crate::functions::ObjectFn;
use pw_flow::FlowGlobal;
use pw_items::Items;
use pw_value::{Name, Shape};

/// The version of object files and of the form of an object's words.
pub const VERSION: u32 = 4;

/// A module as words, with what it was made of.
#[derive(Drop)]
pub struct Object {
    /// The version of the form of its words.
    pub version: u32,
    pub module: Name,
    /// The bytes of the flow file.
    pub flow: Items<u8>,
    /// The payload of the directives.
    pub directives: Items<u8>,
    /// The external names that it declares or defines, in byte order.
    pub declared: Items<(Name, Shape)>,
    /// The names that it uses, in byte order.
    pub used: Items<Name>,
    pub globals: Items<FlowGlobal>,
    pub functions: Items<ObjectFn>,
}
