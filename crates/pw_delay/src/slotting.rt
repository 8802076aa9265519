//! From lines to items.

ghost use Rattle.std.specs.Prelude.{◌≡◌, ◌++◌, List, IfOk, OnOk};
ghost use Rattle.pw_delay.specs.declared.items.Item.{Item as ItemValue};
ghost use Rattle.pw_delay.specs.Items.{bare, link_moved, begins_next, plain_item, fixed_item, jump_item, item_of, before, slotted};

use crate::items::{Item, Relocation, Turn, Word};
use pw_inst::{FixKind, Inst, Line, RETURN_ADDRESS, ROUTINE_LINK, Symbol};
use pw_items::Items;
use std::alloc::{AllocError, Global};

/// The same symbol again.
pub fn copy_symbol(alloc: Global, symbol: &Symbol) -> Result<Symbol, AllocError>
    ensures { IfOk result (λ s. s ≡ symbol.now) }
{
    match symbol {
        Symbol::Named(name) => Ok(Symbol::Named(name.copy(alloc)?)),
        Symbol::Word(word) => Ok(Symbol::Word(*word)),
        Symbol::StackLimit => Ok(Symbol::StackLimit),
        Symbol::Routine(number) => Ok(Symbol::Routine(*number)),
    }
}

/// The word of an instruction that no linker changes.
pub fn bare(inst: Inst) -> Word
    ensures { result ≡ bare inst }
{
    Word {
        inst,
        relocation: None,
    }
}

/// What stands in the slot of a call through a register.
fn link_moved() -> Word
    ensures { result ≡ link_moved }
{
    bare(Inst::Or {
        r1: ROUTINE_LINK,
        r2: 0,
        t: RETURN_ADDRESS,
    })
}

fn begins_next(block: u32, rest: &[Line]) -> bool
    ensures { result ≡ begins_next block rest.now }
{
    match rest {
        [Line::Label(number), ..] => *number == block,
        _ => false,
    }
}

fn plain_item(inst: Inst) -> Item
    ensures { result ≡ plain_item inst }
{
    match inst {
        Inst::Combf { .. } => Item::Turns(Turn::Back(inst), None),
        _ => Item::Plain(bare(inst)),
    }
}

fn fixed_item(
    alloc: Global,
    inst: Inst,
    kind: FixKind,
    symbol: &Symbol,
    addend: u32,
) -> Result<Item, AllocError>
    ensures { IfOk result (λ i. i ≡ fixed_item inst kind symbol.now addend) }
{
    let relocation = Some(Relocation {
        kind,
        symbol: copy_symbol(alloc, symbol)?,
        addend,
    });
    Ok(Item::Plain(Word { inst, relocation }))
}

/// A jump to the block that begins next is no item.
fn jump_item(block: u32, rest: &[Line]) -> Option<Item>
    ensures { result ≡ jump_item block rest.now }
{
    if begins_next(block, rest) {
        None
    } else {
        Some(Item::Turns(Turn::Goto(block), None))
    }
}

/// The item of a line, where it has one, by the lines behind it.
fn item_of(alloc: Global, line: &Line, rest: &[Line]) -> Result<Option<Item>, AllocError>
    ensures { IfOk result (λ i. i ≡ item_of line.now rest.now) }
{
    match line {
        Line::Plain(inst) => Ok(Some(plain_item(*inst))),
        Line::Fixed(inst, kind, symbol, addend) => {
            Ok(Some(fixed_item(alloc, *inst, *kind, symbol, *addend)?))
        }
        Line::Jump(block) => Ok(jump_item(*block, rest)),
        Line::BranchNonZero(r, block) => Ok(Some(Item::Turns(Turn::If(*r, *block), None))),
        Line::Label(block) => Ok(Some(Item::Mark(*block))),
        Line::CallTo(symbol, link) => {
            let turn = Turn::CallTo(copy_symbol(alloc, symbol)?, *link);
            Ok(Some(Item::Turns(turn, None)))
        }
        Line::CallReg => Ok(Some(Item::Turns(Turn::CallReg, Some(link_moved())))),
        Line::Leave => Ok(Some(Item::Turns(Turn::Leave, None))),
    }
}

/// Puts an item behind the others, where there is one.
fn put(items: &mut Items<Item>, item: Option<Item>) -> Result<(), AllocError>
    ensures { OnOk result ((rest : List ItemValue) → items.new ++ rest ≡ items.old ++ before item rest) }
{
    match item {
        Some(item) => items.push(item),
        None => Ok(()),
    }
}

/// The items of lines.
pub fn slot(alloc: Global, lines: &[Line]) -> Result<Items<Item>, AllocError>
    ensures { IfOk result (λ items. items ≡ slotted lines.now) }
{
    let mut items = Items::new(alloc);
    let mut rest = lines;
    while let [line, after @ ..] = rest {
        put(&mut items, item_of(alloc, line, after)?)?;
        rest = after;
    }
    Ok(items)
}
