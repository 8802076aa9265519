//! Directives, and the database of them.

use pw_items::Items;
use pw_value::{Kind, Name};

/// A web: a global that functions keep in a register, under a number of its own.
#[derive(Drop)]
pub struct Web {
    pub id: u32,
    pub global: Name,
    pub kind: Kind,
    /// The register, one of those that a callee keeps, from `FIRST_REGISTER` to `LAST_REGISTER`.
    pub reg: u8,
    /// Whether a function of the web writes the global.
    pub writes: bool,
}

/// What a function is in a web: one that loads the global and stores it back, or one that finds it in
/// its register.
#[derive(Clone, Copy, PartialEq)]
pub enum Role {
    Entry,
    Member,
}

/// What a function is told: its webs in the order of their numbers, each with its role in it; and of the
/// registers that a callee keeps, in rising order, those that it is free to use without saving them, and
/// those that it saves for the functions that are free to use them.
#[derive(Drop)]
pub struct Directives {
    pub webs: Items<(Web, Role)>,
    pub free: Items<u8>,
    pub saves: Items<u8>,
}

/// `PAWD`, the first four bytes of a database file.
pub const KIND: u32 = 0x5041_5744;

/// The first version of the form of a database's file, in which no function shares registers.
pub const FIRST: u32 = 1;

/// The last one.
pub const VERSION: u32 = 2;

/// Functions in byte order of their names, each with its directives. Webs of one number are one web. The
/// version is that of the form of its file.
#[derive(Drop)]
pub struct Database {
    pub version: u32,
    pub functions: Items<(Name, Directives)>,
}
