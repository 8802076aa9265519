//! Relocations: words of a function into which a linker puts an address, and of what the address is.

use pw_value::Name;

/// Which fields of a word a relocation sets: the left part of an address in LDIL, its right part in a
/// displacement of 14 bits, or the displacement of BL.
#[derive(Clone, Copy, Debug)]
pub enum FixKind {
    Ldil,
    Im14,
    Bl,
}

/// What an address is of: a function or an object by its name, a word of the relocation's own function by
/// its number, the end of the stack, or one of the routines `$divs`, `$divu`, `$mul`, `$rems` and `$remu` by
/// its place, below `ROUTINE_COUNT`.
#[derive(Debug, Drop)]
pub enum Symbol {
    Named(Name),
    Word(u32),
    StackLimit,
    Routine(u8),
}

/// A word of a function, by its number, that takes the address of a symbol plus a number.
#[derive(Debug, Drop)]
pub struct Fix {
    pub word: u32,
    pub kind: FixKind,
    pub symbol: Symbol,
    pub addend: u32,
}
