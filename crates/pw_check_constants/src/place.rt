//! Places in objects of static lifetime.

use pw_typed::Symbol;

/// What a place lies in: an object or function by its symbol, or the hidden object of a string by its number.
#[derive(Clone, Copy)]
pub enum Base<'t> {
    /// The object or function of this symbol.
    Named(&'t Symbol),
    /// The hidden object of this number, which holds a string.
    Text(u32),
}

/// A place in an object of static lifetime, in bytes from its start, and the object's size where it is known; or a
/// function.
#[derive(Clone, Copy)]
pub struct Place<'t> {
    pub base: Base<'t>,
    pub offset: u64,
    pub size: Option<u64>,
}

/// Whether an expression is asked for its value, as an address, or for the place that it denotes.
#[derive(Clone, Copy)]
pub enum Asked {
    /// Its value, a pointer, is asked for.
    Address,
    /// The place that it denotes is asked for.
    Place,
}
