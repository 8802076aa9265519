//! Directed flow graphs.

use pw_db::Directives;
use pw_flow::{End, Op};
use pw_items::Items;
use pw_value::{Name, Shape};

/// An operation: one of a flow graph, or a copy from or to the register of a web.
#[derive(Drop)]
pub enum WebOp {
    Flow(Op),
    /// The temporary becomes what the register holds.
    Read(u32, u8),
    /// The register becomes what the temporary holds.
    Write(u8, u32),
}

/// Operations and the way on. The depth is that of the loops around it.
#[derive(Drop)]
pub struct WebBlock {
    pub depth: u32,
    pub ops: Items<WebOp>,
    pub end: End,
}

/// A function with its directives.
#[derive(Drop)]
pub struct WebFn {
    pub name: Name,
    pub shape: Shape,
    pub params: u32,
    pub temps: u32,
    pub slots: Items<u32>,
    pub blocks: Items<WebBlock>,
    pub directives: Directives,
}
