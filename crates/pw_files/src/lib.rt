//! What several files of the compiler share: a table of names with the fields of a value behind it, lists,
//! lists in byte order without repeats, items at places of an object, the byte of a kind, names with their
//! shapes, and the rules that are looked at last.
#![tactic(auto)]

pub mod format;
pub mod kinds;
pub mod late;
pub mod laws;
pub mod lists;
pub mod places;
pub mod used;
pub mod writing;
