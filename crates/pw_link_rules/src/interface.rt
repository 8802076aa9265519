//! What a module shows to the others.

use pw_items::Items;
use pw_value::{Name, Shape};

/// What a module shows to the others: its names with external linkage.
#[derive(Drop)]
pub struct Interface {
    pub module: Name,
    /// The functions that it defines.
    pub functions: Items<Name>,
    /// The objects that it defines.
    pub globals: Items<Name>,
    /// The names that it declares or defines, with their shapes.
    pub declared: Items<(Name, Shape)>,
    /// The names that it uses.
    pub used: Items<Name>,
    /// The shape of its `main`, where it defines one.
    pub main: Option<Shape>,
}
