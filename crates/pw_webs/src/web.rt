//! Webs.

use pw_fix::BitRow;

/// A part of a program in which a global may live in one register: the functions that find it there, and
/// among them those that load it and store it back.
#[derive(Drop)]
pub struct RawWeb {
    /// The place of the global in the call graph.
    pub global: u32,
    /// The places of its functions, the entries included.
    pub members: BitRow,
    /// The places of its entries.
    pub entries: BitRow,
    /// Whether a member writes the global.
    pub writes: bool,
    /// What the web saves.
    pub priority: i64,
}
