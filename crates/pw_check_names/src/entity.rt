//! What names stand for, and what a module makes of them.

use crate::cases::CaseList;
use pw_typed::TItem;
use pw_types::{IntKind, QType};

/// What an identifier of the ordinary name space is declared as.
#[derive(Drop)]
pub enum Entity {
    /// A typedef name, with its type.
    TypeName(QType),
    /// Its value as an int.
    EnumerationConstant(u32),
    /// A parameter or local: its place among the function's locals, its type, whether it is declared `register`.
    LocalObject(u32, QType, bool),
    /// A static local: the number of its hidden object, its type.
    StaticObject(u32, QType),
    /// Its place among the names with linkage, and the type that it has in this scope.
    Linked(u32, QType),
}

/// An object or function with linkage (C90 6.1.2.2): its name, its type by all its declarations so far, whether it is
/// tentatively defined and whether it is defined, its first bytes, the token of its first declaration, and that of the
/// tag which this declaration brought in.
#[derive(Drop)]
pub struct LinkedName<'a> {
    pub name: &'a [u8],
    pub internal: bool,
    pub ty: QType,
    pub tentative: bool,
    pub defined: bool,
    pub items: Vec<(u32, TItem)>,
    pub token: usize,
    pub tag: Option<usize>,
}

/// An object of static lifetime without a name of its own.
#[derive(Drop)]
pub struct HiddenObject {
    pub ty: QType,
    pub writable: bool,
    pub items: Vec<(u32, TItem)>,
}

/// A switch around: the type of its value, its cases so far, and its default.
#[derive(Drop)]
pub struct SwitchState {
    pub kind: IntKind,
    pub cases: CaseList,
    pub default: Option<u32>,
}
