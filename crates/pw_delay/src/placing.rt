//! Placement.

ghost use Rattle.std.specs.Prelude.{true, false, ◌≡◌, ◌≤◌, IfOk, OkIff};
ghost use Rattle.pw_delay.specs.Lines.{AreLines};
ghost use Rattle.pw_delay.specs.Placement.{sizes, laid, placed_items, placed, short_limit, function_word_limit};
ghost use Rattle.pw_delay.specs.Lawful.{AreItems};

use crate::code::Code;
use crate::filling::fill;
use crate::items::Item;
use crate::laying::lay;
use crate::marking::count_words;
use crate::slotting::slot;
use pw_inst::Line;
use pw_items::Items;
use std::alloc::{AllocError, Global};

/// How many words short conditional branches can reach over.
pub const SHORT_LIMIT: usize = 2040;

/// The greatest count of words of a function's code.
pub const FUNCTION_WORD_LIMIT: usize = 4_294_967_292;

/// The limits are those that the definitions speak of.
pub fn limits_of_code()
    ensures short_branches { SHORT_LIMIT ≡ short_limit }
    ensures words { FUNCTION_WORD_LIMIT ≡ function_word_limit }
{}

/// A count of words, where a function's code may have so many; else want of memory.
fn told_count(count: usize) -> Result<u32, AllocError>
    ensures { OkIff result (count ≤ function_word_limit) count }
{
    if count > FUNCTION_WORD_LIMIT {
        return Err(AllocError);
    }
    Ok(count as u32)
}

/// The words and relocations of items with long conditional branches.
fn lay_long(alloc: Global, items: &[Item]) -> Result<Code, AllocError>
    requires { AreItems items.now }
    ensures { IfOk result (λ code. code ≡ laid true items.now) }
{
    let count = told_count(count_words(true, items))?;
    lay(alloc, true, items, count)
}

/// The words and relocations of items with short conditional branches, which reach over so few words.
fn lay_short(alloc: Global, items: &[Item]) -> Result<Code, AllocError>
    requires lawful { AreItems items.now }
    requires near { sizes false items.now ≤ short_limit }
    ensures { IfOk result (λ code. code ≡ laid false items.now) }
{
    let count = count_words(false, items);
    lay(alloc, false, items, count as u32)
}

/// The words and relocations of items, once words have moved into the slots of the branches behind them. Conditional branches
/// are long where the words with short ones, counted before, are too many.
#[tactic(auto, using(crate::proofs::Keeping::sizes_shrink, crate::proofs::Keeping::lawful_stays))]
fn place_items(alloc: Global, items: Items<Item>) -> Result<Code, AllocError>
    requires { AreItems items }
    ensures { IfOk result (λ code. code ≡ placed_items items) }
{
    let long = count_words(false, items.as_slice()) > SHORT_LIMIT;
    let filled = fill(alloc, items)?;
    if long {
        lay_long(alloc, filled.as_slice())
    } else {
        lay_short(alloc, filled.as_slice())
    }
}

/// The words and relocations of the lines of a function's code.
#[tactic(auto, using(crate::proofs::Sizes::slotted_lawful), unfolding(crate::specs::Placement::placed))]
pub fn place(alloc: Global, lines: &[Line]) -> Result<Code, AllocError>
    requires { AreLines lines.now }
    ensures { IfOk result (λ code. code ≡ placed lines.now) }
{
    let items = slot(alloc, lines)?;
    let code = place_items(alloc, items)?;
    Ok(code)
}
