//! From items to items with their delay slots filled.

ghost use Rattle.std.specs.Prelude.{◌≡◌, Some, List, [], ◌∷◌, ◌++◌, false, IfOk};
ghost use Rattle.std.specs.List.{cons_option};
ghost use Rattle.pw_inst.specs.Computing.{source_registers, target_registers};
ghost use Rattle.pw_delay.specs.declared.items.Item.{Item as ItemValue};
ghost use Rattle.pw_delay.specs.Filling as filling;
ghost use Rattle.pw_delay.specs.Steps.{is_taken, with_word, whole};

use crate::items::{Item, Turn, Word};
use crate::registers::{reads, target};
use pw_inst::{FIRST, Inst, RETURN_ADDRESS};
use pw_items::Items;
use std::alloc::{AllocError, Global};

/// Whether a word may stand in a slot: it is no branch, COMCLR, BREAK or NOP.
fn may_move(inst: Inst) -> bool
    ensures { result ≡ filling.may_move inst }
{
    match inst {
        Inst::Comclr { .. } => false,
        Inst::Combt { .. } => false,
        Inst::Combf { .. } => false,
        Inst::Bl { .. } => false,
        Inst::Bv { .. } => false,
        Inst::Ble { .. } => false,
        Inst::Break { .. } => false,
        Inst::Or { r1, r2, t } => !(r1 == 0 && r2 == 0 && t == 0),
        _ => true,
    }
}

/// Whether a word writes a register that a branch reads.
fn writes_operand(word: Inst, branch: Inst) -> bool
    ensures { result ≡ filling.have_common (target_registers word) (source_registers branch) }
{
    match target(word) {
        Some(register) => reads(branch, register),
        None => false,
    }
}

/// Whether a word reads or writes a register other than 0 that a branch writes.
fn names_link(word: Inst, branch: Inst) -> bool
    ensures { result ≡ filling.have_common (source_registers word ++ target_registers word) (filling.but_zero (target_registers branch)) }
{
    match target(branch) {
        Some(link) => link != 0 && (reads(word, link) || target(word) == Some(link)),
        None => false,
    }
}

/// The branch of a turn, wherever it leads.
fn branch(turn: &Turn) -> Inst
    ensures { result ≡ filling.branch turn.now }
{
    match turn {
        Turn::Back(inst) => *inst,
        Turn::Goto(_) => Inst::Bl {
            disp: 0,
            t: 0,
            n: false,
        },
        Turn::If(r, _) => Inst::Combf {
            c: 1,
            r1: *r,
            r2: 0,
            disp: 0,
        },
        Turn::CallTo(_, link) => Inst::Bl {
            disp: 0,
            t: *link,
            n: false,
        },
        Turn::CallReg => Inst::Ble { b: FIRST, n: false },
        Turn::Leave => Inst::Bv {
            b: RETURN_ADDRESS,
            n: true,
        },
    }
}

/// Whether a word moves into the slot of the turn behind it.
fn moves(word: Inst, turn: &Turn) -> bool
    ensures { result ≡ filling.moves word turn.now }
{
    let by = branch(turn);
    may_move(word) && !writes_operand(word, by) && !names_link(word, by)
}

/// How far a branch goes back whose last word has moved into its slot.
fn nearer(disp: i32) -> i32
    ensures { result ≡ filling.nearer disp }
{
    if disp < -2 { disp + 1 } else { disp }
}

/// The turn whose slot takes the word before it.
fn drawn_near(turn: Turn) -> Turn
    ensures { result ≡ filling.drawn_near turn }
{
    match turn {
        Turn::Back(Inst::Combf { c, r1, r2, disp }) => Turn::Back(Inst::Combf {
            c,
            r1,
            r2,
            disp: nearer(disp),
        }),
        other => other,
    }
}

/// Whether the word behind an item stands behind a COMCLR.
fn compared(behind: bool, item: &Item) -> bool
    ensures { result ≡ filling.compared behind item.now }
{
    match item {
        Item::Plain(
            Word {
                inst: Inst::Comclr { .. },
                ..
            },
        ) => true,
        Item::Plain(_) => false,
        Item::Turns(_, _) => false,
        Item::Mark(_) => behind,
    }
}

/// Whether an item moves into the slot of the next one.
fn is_taken(behind: bool, item: &Item, next: &Item) -> bool
    ensures { result ≡ is_taken behind item.now next.now }
{
    match item {
        Item::Plain(word) => match next {
            Item::Turns(turn, None) => !behind && moves(word.inst, turn),
            _ => false,
        },
        _ => false,
    }
}

/// The next item with this one in its slot.
fn with_word(item: Item, next: Item) -> Item
    ensures { result ≡ with_word item next }
{
    match item {
        Item::Plain(word) => match next {
            Item::Turns(turn, _) => Item::Turns(drawn_near(turn), Some(word)),
            other => other,
        },
        _ => next,
    }
}

/// The next item comes behind the last one, which is done then, or stands in its slot. What it gives is the item that is
/// the last one now, and whether that stands behind a COMCLR.
fn put_behind(
    done: &mut Items<Item>,
    behind: bool,
    last: Item,
    next: Item,
) -> Result<(Option<Item>, bool), AllocError>
    ensures { IfOk result (λ r. (rest : List ItemValue) → whole done.new r.1 r.0 rest ≡ whole done.old behind (Some last) (next ∷ rest)) }
{
    if is_taken(behind, &last, &next) {
        done.push(with_word(last, next))?;
        Ok((None, false))
    } else {
        let then = compared(behind, &last);
        done.push(last)?;
        Ok((Some(next), then))
    }
}

/// The next item comes.
fn put(
    done: &mut Items<Item>,
    behind: bool,
    last: Option<Item>,
    next: Item,
) -> Result<(Option<Item>, bool), AllocError>
    ensures { IfOk result (λ r. (rest : List ItemValue) → whole done.new r.1 r.0 rest ≡ whole done.old behind last (next ∷ rest)) }
{
    match last {
        Some(last) => put_behind(done, behind, last, next),
        None => Ok((Some(next), behind)),
    }
}

/// No more items come.
fn finish(done: Items<Item>, last: Option<Item>) -> Result<Items<Item>, AllocError>
    ensures { IfOk result (λ items. items ≡ done ++ cons_option last []) }
{
    let mut items = done;
    if let Some(last) = last {
        items.push(last)?;
    }
    Ok(items)
}

/// The items with words moved into the slots of the branches behind them.
pub fn fill(alloc: Global, items: Items<Item>) -> Result<Items<Item>, AllocError>
    ensures { IfOk result (λ filled. filled ≡ filling.filled false items) }
{
    let mut done = Items::new(alloc);
    let mut behind = false;
    let mut last = None;
    for item in items.into_vec() {
        let (now, then) = put(&mut done, behind, last, item)?;
        last = now;
        behind = then;
    }
    finish(done, last)
}
