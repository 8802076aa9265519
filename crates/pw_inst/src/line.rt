//! Lines: what a function's code is made of before its words have places.

use crate::Inst;
use crate::relocation::{FixKind, Symbol};

/// A line of a function's code. A jump's target and a label are a block's number.
#[derive(Drop)]
pub enum Line {
    /// An instruction.
    Plain(Inst),
    /// An instruction into whose word a linker puts the address of a symbol plus a number.
    Fixed(Inst, FixKind, Symbol, u32),
    /// Goes on at the block.
    Jump(u32),
    /// Goes on at the block where the register does not hold 0.
    BranchNonZero(u8, u32),
    /// The block begins here.
    Label(u32),
    /// Calls the symbol, and puts the address to return to into the register.
    CallTo(Symbol, u8),
    /// Calls the function whose address is in register 22.
    CallReg,
    /// Returns to the address in register 2.
    Leave,
}
