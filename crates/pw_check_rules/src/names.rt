//! Names in scope, and objects of static lifetime, as the rules speak of them.

/// A name in scope: the place of what it is declared as among all that is declared, and how deep its scope is.
#[derive(Clone, Copy)]
pub struct Entry {
    pub place: u32,
    pub depth: u32,
}

/// What a tag names (C90 6.5.2.3): a structure or union by its number, or an enumeration.
#[derive(Clone, Copy)]
pub enum Tag {
    /// The structure or union of this number.
    Record(u32),
    /// An enumeration.
    Enumeration,
}

/// A tag in scope, and how deep its scope is.
#[derive(Clone, Copy)]
pub struct TagEntry {
    pub tag: Tag,
    pub depth: u32,
}

/// An object of static lifetime: by the place of its name among those with linkage, or by its number among the
/// objects without a name.
#[derive(Clone, Copy)]
pub enum Slot {
    /// The object whose name has this place among the names with linkage.
    Named(u32),
    /// The object without a name that has this number.
    Hidden(u32),
}
