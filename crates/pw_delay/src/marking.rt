//! How many words items have, and where blocks begin.

ghost use Rattle.std.specs.Prelude.{ℕ, ◌≡◌, ◌≤◌, ◌+◌, ◌==◌, ◌∷◌, List, if◌then◌else◌, unwrap_or, nat_eq, IfOk, OnOk};
ghost use Rattle.indexmap.specs.IndexMap.{get};
ghost use Rattle.pw_delay.specs.declared.items.Item.{Item as ItemValue};
ghost use Rattle.pw_delay.specs.Placement.{turn_size, size, sizes, mark_at};
ghost use Rattle.pw_delay.specs.Marks.{begins};

use crate::items::{Item, Turn, Word};
use indexmap::IndexMap;
use std::alloc::{AllocError, Global};

fn turn_size(long: bool, turn: &Turn, slot: &Option<Word>) -> usize
    ensures { result ≡ turn_size long turn.now slot.now }
{
    match turn {
        Turn::Leave => match slot {
            Some(_) => 2,
            None => 1,
        },
        Turn::If(_, _) => { if long { 4 } else { 2 } }
        _ => 2,
    }
}

/// How many words an item has.
pub fn size(long: bool, item: &Item) -> usize
    ensures value { result ≡ size long item.now }
    ensures small { result ≤ 4 }
{
    match item {
        Item::Plain(_) => 1,
        Item::Turns(turn, slot) => turn_size(long, turn, slot),
        Item::Mark(_) => 0,
    }
}

/// How many words items have.
pub fn count_words(long: bool, items: &[Item]) -> usize
    ensures { result ≡ sizes long items.now }
{
    let mut count = 0;
    for item in items {
        count += size(long, item);
    }
    count
}

/// The words at which the blocks of a function begin, by its table of marks. A block without a mark begins
/// at the end.
#[derive(Drop)]
pub struct Blocks {
    marks: IndexMap<u32, u32>,
    end: u32,
}

impl Blocks {
    /// The word at which a block begins.
    pub fn begin(&self, block: u32) -> u32
        ensures { result ≡ begins self.now block }
    {
        match self.marks.get(&block) {
            Some(word) => *word,
            None => self.end,
        }
    }
}

/// The block begins at the word, if it did not begin before. A block has one mark, which is looked up once.
fn note(marks: &mut IndexMap<u32, u32>, block: u32, at: u32) -> Result<(), AllocError>
    ensures { OnOk result ((b d : ℕ) → unwrap_or (get nat_eq marks.new b) d ≡ unwrap_or (get nat_eq marks.old b) (if block == b then at else d)) }
{
    if let Some(before) = marks.insert(block, at)? {
        marks.insert(block, before)?;
    }
    Ok(())
}

/// A block may begin at an item, which stands at a word.
fn note_item(
    marks: &mut IndexMap<u32, u32>,
    long: bool,
    item: &Item,
    at: u32,
) -> Result<(), AllocError>
    ensures { OnOk result ((b : ℕ) (rest : List ItemValue) → unwrap_or (get nat_eq marks.new b) (mark_at long (at + size long item.now) rest b) ≡ unwrap_or (get nat_eq marks.old b) (mark_at long at (item.now ∷ rest) b)) }
{
    match item {
        Item::Plain(_) => Ok(()),
        Item::Turns(_, _) => Ok(()),
        Item::Mark(block) => note(marks, *block, at),
    }
}

/// The words at which the blocks begin, of items that have so many words.
pub fn mark(alloc: Global, long: bool, items: &[Item], end: u32) -> Result<Blocks, AllocError>
    requires { sizes long items.now ≡ end }
    ensures { IfOk result (λ blocks. (b : ℕ) → begins blocks b ≡ mark_at long 0 items.now b) }
{
    let mut marks = IndexMap::new(alloc);
    let mut at = 0;
    let mut rest = items;
    while let [item, after @ ..] = rest {
        note_item(&mut marks, long, item, at)?;
        at += size(long, item) as u32;
        rest = after;
    }
    Ok(Blocks { marks, end })
}
