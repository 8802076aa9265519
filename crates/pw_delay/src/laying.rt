//! From items to words and relocations.

ghost use Rattle.std.specs.Prelude.{false, List, ◌≡◌, ◌≤◌, ◌<◌, ◌+◌, ◌^◌, ◌∷◌, ◌++◌, [], length, OnOk, IfOk};
ghost use Rattle.pw_inst.specs.Fields.{IsSigned};
ghost use Rattle.pw_inst.specs.InstructionTable.{IsInRange, IsRegister};
ghost use Rattle.pw_delay.specs.declared.items.Item.{Item as ItemValue};
ghost use Rattle.pw_delay.specs.Items.{bare};
ghost use Rattle.pw_delay.specs.Placement.{fix_at, in_slot, to_block, displacement, call_word, long_branch, branch_words, return_words, turn_words, item_words, size, sizes, words_from, extended, code_of, laid, short_limit};
ghost use Rattle.pw_delay.specs.Marks.{begins, AreWithin};
ghost use Rattle.pw_delay.specs.Lawful.{IsSlot, IsTurn, IsItem, AreItems};

use crate::code::Code;
use crate::items::{Item, Relocation, Turn, Word};
use crate::marking::{Blocks, mark};
use crate::slotting::{bare, copy_symbol};
use pw_inst::{FIRST, Fix, FixKind, Inst, NOP, Symbol, encode};
use pw_items::Items;
use std::alloc::{AllocError, Global};

/// Puts the relocation of the word of a number behind the others, where it has one.
fn put_fix(
    fixes: &mut Items<Fix>,
    at: u32,
    relocation: Option<Relocation>,
) -> Result<(), AllocError>
    ensures { OnOk result (fixes.new ≡ fixes.old ++ fix_at at relocation) }
{
    match relocation {
        Some(
            Relocation {
                kind,
                symbol,
                addend,
            },
        ) => fixes.push(Fix {
            word: at,
            kind,
            symbol,
            addend,
        }),
        None => Ok(()),
    }
}

/// Puts a word and its relocation behind the others.
#[tactic(auto, unfolding(crate::specs::Placement::extended))]
fn put(code: &mut Code, word: Word) -> Result<(), AllocError>
    requires inst { IsInRange word.inst }
    requires room { length code.old.words < 2 ^ 32 }
    ensures { OnOk result (code.new ≡ extended code.old (word ∷ [])) }
{
    let at = code.words.len() as u32;
    let Word { inst, relocation } = word;
    code.words.push(encode(inst))?;
    put_fix(&mut code.fixes, at, relocation)
}

/// The same word again.
fn copy_word(alloc: Global, word: &Word) -> Result<Word, AllocError>
    ensures { IfOk result (λ w. w ≡ word.now) }
{
    let relocation = match &word.relocation {
        Some(r) => Some(Relocation {
            kind: r.kind,
            symbol: copy_symbol(alloc, &r.symbol)?,
            addend: r.addend,
        }),
        None => None,
    };
    Ok(Word {
        inst: word.inst,
        relocation,
    })
}

/// Puts what stands in a delay slot, or else the instruction that does nothing.
#[tactic(auto, unfolding(pw_inst::specs::InstructionTable::IsInRange))]
fn put_slot(alloc: Global, code: &mut Code, slot: &Option<Word>) -> Result<(), AllocError>
    requires inst { IsSlot slot.now }
    requires room { length code.old.words < 2 ^ 32 }
    ensures { OnOk result (code.new ≡ extended code.old (in_slot slot.now ∷ [])) }
{
    match slot {
        Some(word) => put(code, copy_word(alloc, word)?),
        None => put(code, bare(NOP)),
    }
}

/// A word that goes to the word of a number in the same function.
fn to_block(word: u32) -> Word
    ensures { result ≡ to_block word }
{
    call_word(Symbol::Word(word), 0)
}

/// A word that calls a symbol.
fn call_word(symbol: Symbol, link: u8) -> Word
    ensures { result ≡ call_word symbol link }
{
    Word {
        inst: Inst::Bl {
            disp: 0,
            t: link,
            n: false,
        },
        relocation: Some(Relocation {
            kind: FixKind::Bl,
            symbol,
            addend: 0,
        }),
    }
}

/// Puts a word and the slot behind it.
#[tactic(auto, using(crate::proofs::Extending::twice, crate::proofs::Extending::length_extended))]
fn put_both(
    alloc: Global,
    code: &mut Code,
    word: Word,
    slot: &Option<Word>,
) -> Result<(), AllocError>
    requires word { IsInRange word.inst }
    requires slot { IsSlot slot.now }
    requires room { length code.old.words + 2 ≤ 2 ^ 32 }
    ensures { OnOk result (code.new ≡ extended code.old (word ∷ in_slot slot.now ∷ [])) }
{
    put(code, word)?;
    put_slot(alloc, code, slot)
}

/// The displacement from a word to another, both near.
fn displacement(at: u32, to: u32) -> i32
    requires { (at ≤ short_limit) × (to ≤ short_limit) }
    ensures value { result ≡ displacement at to }
    ensures small { IsSigned 12 result }
{
    to as i32 - (at as i32 + 2)
}

/// A branch over a jump, which reaches as far as a jump does.
#[tactic(auto, using(crate::proofs::Extending::twice, crate::proofs::Extending::length_extended), unfolding(pw_inst::specs::InstructionTable::IsInRange))]
fn put_long_branch(
    alloc: Global,
    code: &mut Code,
    r: u8,
    to: u32,
    slot: &Option<Word>,
) -> Result<(), AllocError>
    requires register { IsRegister r }
    requires slot { IsSlot slot.now }
    requires room { length code.old.words + 4 ≤ 2 ^ 32 }
    ensures { OnOk result (code.new ≡ extended code.old (long_branch r to slot.now)) }
{
    let over = Inst::Combt {
        c: 1,
        r1: r,
        r2: 0,
        disp: 2,
    };
    put_both(alloc, code, bare(over), slot)?;
    put_both(alloc, code, to_block(to), &None)
}

/// A return.
#[tactic(auto, using(crate::proofs::Extending::twice, crate::proofs::Extending::length_extended), unfolding(pw_inst::specs::InstructionTable::IsInRange))]
fn put_return(alloc: Global, code: &mut Code, slot: &Option<Word>) -> Result<(), AllocError>
    requires slot { IsSlot slot.now }
    requires room { length code.old.words + 2 ≤ 2 ^ 32 }
    ensures { OnOk result (code.new ≡ extended code.old (return_words slot.now)) }
{
    let n = slot.is_none();
    let back = bare(Inst::Bv { b: 2, n });
    if n {
        put(code, back)
    } else {
        put_both(alloc, code, back, slot)
    }
}

/// Puts the words of a conditional branch.
#[tactic(auto, unfolding(pw_inst::specs::InstructionTable::IsInRange))]
fn put_branch(
    alloc: Global,
    code: &mut Code,
    long: bool,
    r: u8,
    to: u32,
    slot: &Option<Word>,
) -> Result<(), AllocError>
    requires register { IsRegister r }
    requires slot { IsSlot slot.now }
    requires room { length code.old.words + 4 ≤ 2 ^ 32 }
    requires near { long ≡ false → (length code.old.words ≤ short_limit) × (to ≤ short_limit) }
    ensures { OnOk result (code.new ≡ extended code.old (branch_words long (length code.old.words) r to slot.now)) }
{
    if long {
        return put_long_branch(alloc, code, r, to, slot);
    }
    let disp = displacement(code.words.len() as u32, to);
    let branch = Inst::Combf {
        c: 1,
        r1: r,
        r2: 0,
        disp,
    };
    put_both(alloc, code, bare(branch), slot)
}

/// Puts the words of a turn.
#[tactic(auto, unfolding(pw_inst::specs::InstructionTable::IsInRange))]
fn put_turn(
    alloc: Global,
    code: &mut Code,
    long: bool,
    blocks: &Blocks,
    turn: &Turn,
    slot: &Option<Word>,
) -> Result<(), AllocError>
    requires turn { IsTurn turn.now }
    requires slot { IsSlot slot.now }
    requires room { length code.old.words + 4 ≤ 2 ^ 32 }
    requires near { long ≡ false → (length code.old.words ≤ short_limit) × AreWithin short_limit blocks.now }
    ensures { OnOk result (code.new ≡ extended code.old (turn_words long (begins blocks.now) (length code.old.words) turn.now slot.now)) }
{
    match turn {
        Turn::Back(branch) => put_both(alloc, code, bare(*branch), slot),
        Turn::Goto(block) => put_both(alloc, code, to_block(blocks.begin(*block)), slot),
        Turn::If(r, block) => put_branch(alloc, code, long, *r, blocks.begin(*block), slot),
        Turn::CallTo(symbol, link) => {
            let call = call_word(copy_symbol(alloc, symbol)?, *link);
            put_both(alloc, code, call, slot)
        }
        Turn::CallReg => put_both(alloc, code, bare(Inst::Ble { b: FIRST, n: false }), slot),
        Turn::Leave => put_return(alloc, code, slot),
    }
}

/// Puts the words of an item.
#[tactic(auto, using(crate::proofs::Extending::extended_by_none))]
fn put_item(
    alloc: Global,
    code: &mut Code,
    long: bool,
    blocks: &Blocks,
    item: &Item,
) -> Result<(), AllocError>
    requires lawful { IsItem item.now }
    requires room { length code.old.words + 4 ≤ 2 ^ 32 }
    requires near { long ≡ false → (length code.old.words ≤ short_limit) × AreWithin short_limit blocks.now }
    ensures { OnOk result (code.new ≡ extended code.old (item_words long (begins blocks.now) (length code.old.words) item.now)) }
{
    match item {
        Item::Plain(word) => put(code, copy_word(alloc, word)?),
        Item::Turns(turn, slot) => put_turn(alloc, code, long, blocks, turn, slot),
        Item::Mark(_) => Ok(()),
    }
}

/// Puts the words of an item; those of the items that are left stand behind them.
fn put_next(
    alloc: Global,
    code: &mut Code,
    long: bool,
    blocks: &Blocks,
    item: &Item,
) -> Result<(), AllocError>
    requires lawful { IsItem item.now }
    requires room { length code.old.words + 4 ≤ 2 ^ 32 }
    requires near { long ≡ false → (length code.old.words ≤ short_limit) × AreWithin short_limit blocks.now }
    ensures words { OnOk result ((rest : List ItemValue) → extended code.new (words_from long (begins blocks.now) (length code.new.words) rest) ≡ extended code.old (words_from long (begins blocks.now) (length code.old.words) (item.now ∷ rest))) }
    ensures count { OnOk result (length code.new.words ≡ length code.old.words + size long item.now) }
{
    put_item(alloc, code, long, blocks, item)?;
    Ok(())
}

/// Code without words.
fn no_code(alloc: Global) -> Code
    ensures { result ≡ code_of [] }
{
    Code {
        words: Items::new(alloc),
        fixes: Items::new(alloc),
    }
}

/// The words and relocations of items, by the words at which their blocks begin.
#[tactic(auto, using(crate::proofs::Extending::extended_by_none, crate::proofs::Extending::extended_none))]
fn lay_out(alloc: Global, long: bool, blocks: &Blocks, items: &[Item]) -> Result<Code, AllocError>
    requires lawful { AreItems items.now }
    requires room { sizes long items.now + 4 ≤ 2 ^ 32 }
    requires near { long ≡ false → (sizes long items.now ≤ short_limit) × AreWithin short_limit blocks.now }
    ensures { IfOk result (λ code. code ≡ code_of (words_from long (begins blocks.now) 0 items.now)) }
{
    let mut code = no_code(alloc);
    let mut rest = items;
    while let [item, after @ ..] = rest {
        put_next(alloc, &mut code, long, blocks, item)?;
        rest = after;
    }
    Ok(code)
}

/// The words and relocations of items that have so many words, with short or with long conditional branches.
pub fn lay(alloc: Global, long: bool, items: &[Item], end: u32) -> Result<Code, AllocError>
    requires lawful { AreItems items.now }
    requires count { sizes long items.now ≡ end }
    requires room { end + 4 ≤ 2 ^ 32 }
    requires near { long ≡ false → end ≤ short_limit }
    ensures { IfOk result (λ code. code ≡ laid long items.now) }
{
    let blocks = mark(alloc, long, items, end)?;
    let code = lay_out(alloc, long, &blocks, items)?;
    Ok(code)
}
