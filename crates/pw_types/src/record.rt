//! What is known of a structure or union type.

use crate::ctype::QType;
use pw_value::{Name, Shape};

/// Whether members stand one after another or all at the beginning.
#[derive(Clone, Copy, PartialEq, Eq)]
pub enum RecordKind {
    /// Members stand one after another.
    Structure,
    /// All members stand at the beginning.
    Union,
}

/// The size of a type in bytes, and what the offsets of its objects are multiples of.
#[derive(Clone, Copy)]
pub struct Layout {
    pub size: u32,
    pub align: u32,
}

/// A member: its name and its type.
#[derive(Drop)]
pub struct Member {
    pub name: Name,
    pub ty: QType,
}

/// A record's definition: its members in order, and what follows from them, the members' offsets in
/// bytes first.
#[derive(Drop)]
pub struct Content {
    pub members: Vec<Member>,
    pub offsets: Vec<u32>,
    pub layout: Layout,
    pub shape: Shape,
    pub depth: u32,
}

/// A structure or union type, with its content where it is defined.
#[derive(Drop)]
pub struct RecordType {
    pub kind: RecordKind,
    pub content: Option<Content>,
}
