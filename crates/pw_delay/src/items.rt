//! Lines as items: words, turns of control with what stands in their delay slots, and the places where
//! blocks begin.

use pw_inst::{FixKind, Inst, Symbol};

/// What a linker puts into a word: the address of a symbol plus a number.
#[derive(Drop)]
pub struct Relocation {
    pub kind: FixKind,
    pub symbol: Symbol,
    pub addend: u32,
}

/// A word that is no branch, and its relocation where it has one.
#[derive(Drop)]
pub struct Word {
    pub inst: Inst,
    pub relocation: Option<Relocation>,
}

/// Where control may go elsewhere than to the next word.
#[derive(Drop)]
pub enum Turn {
    /// A loop inside a block goes back by a branch that is placed already.
    Back(Inst),
    /// To a block.
    Goto(u32),
    /// To a block where a register does not hold 0.
    If(u8, u32),
    /// A call of a symbol, whose return address goes to a register.
    CallTo(Symbol, u8),
    /// A call of the address in the register of a first operand.
    CallReg,
    /// The return.
    Leave,
}

/// A word, a turn with the word in its delay slot, or the beginning of a block.
#[derive(Drop)]
pub enum Item {
    Plain(Word),
    Turns(Turn, Option<Word>),
    Mark(u32),
}
