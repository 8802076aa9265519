//! The call graph of a program, and which functions reach a global.

use pw_fix::BitRows;
use pw_items::Items;
use pw_value::{Kind, Name};

/// All functions of a program, `$start` and the library's included, with what they call, and the globals
/// that may live in registers, with who refers to them, and how many registers each function needs.
#[derive(Drop)]
pub struct CallGraph {
    /// The functions in byte order.
    pub functions: Items<Name>,
    /// The eligible globals in byte order, with their kinds.
    pub globals: Items<(Name, Kind)>,
    /// The places of the functions that each function calls, rising.
    pub calls: Items<Items<u32>>,
    /// The places of the eligible globals that each function refers to, rising, with its weighted reads and
    /// weighted writes.
    pub refs: Items<Items<(u32, u64, u64)>>,
    /// How many registers each function needs beside the two that every call may change.
    pub needs: Items<u8>,
}

/// Sets of eligible globals, a row for each function: those that it refers to itself, those that a function
/// refers to from which a path of calls leads to it, and those that a function refers to to which a path of
/// calls leads from it.
#[derive(Drop)]
pub struct RefSets {
    pub l_ref: BitRows,
    pub p_ref: BitRows,
    pub c_ref: BitRows,
}
