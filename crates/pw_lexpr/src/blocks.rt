//! The blocks of a function in the order of their numbers.

ghost use Rattle.std.specs.Prelude.{◌≡◌, Some, IfOk, OnOk, map, replicate, None};
ghost use Rattle.pw_lower.specs.Codes.{bare as bare_block, blocks_below};
ghost use Rattle.pw_lexpr.specs.Placing.{put_at, put_all, block_or_bare};

use pw_flow::{Block, End};
use pw_items::Items;
use pw_lower::Numbered;
use pw_value::NoMemory;
use std::alloc::Global;

/// A block without operations that returns nothing.
pub fn bare(alloc: Global) -> Block
    ensures { result ≡ bare_block }
{
    Block {
        depth: 0,
        ops: Items::new(alloc),
        end: End::Return(None),
    }
}

/// Puts a block in the place of its number, unless one stands there.
fn put(places: &mut [Option<Block>], number: u32, block: Block)
    ensures { places.new ≡ put_at number block places.old }
{
    let number = number as usize;
    if let Some(None) = places.get(number) {
        places[number] = Some(block);
    }
}

/// So many places without a block.
fn no_blocks(alloc: Global, count: u32) -> Result<Vec<Option<Block>>, NoMemory>
    ensures { IfOk result (λ places. places.items ≡ replicate count None) }
{
    let mut places = Vec::new(alloc);
    for _ in 0..count {
        places.push(None)?;
    }
    Ok(places)
}

/// Each block in its place.
#[tactic(auto, using(crate::proofs::PlacingLaws::put_one_more))]
fn put_blocks(places: &mut [Option<Block>], closed: Vec<Numbered>)
    ensures { places.new ≡ put_all closed.items places.old }
{
    for numbered in closed {
        put(places, numbered.number, numbered.block);
    }
}

/// The blocks, and a bare one in each place that has none.
fn filled(alloc: Global, places: Vec<Option<Block>>) -> Result<Items<Block>, NoMemory>
    ensures { IfOk result (λ blocks. blocks ≡ map block_or_bare places.items) }
{
    let mut blocks = Items::new(alloc);
    for place in places {
        blocks.push(match place {
            Some(block) => block,
            None => bare(alloc),
        })?;
    }
    Ok(blocks)
}

/// The closed blocks of the numbers below `count`, in the order of their numbers.
pub fn in_order(
    alloc: Global,
    closed: Items<Numbered>,
    count: u32,
) -> Result<Items<Block>, NoMemory>
    ensures { IfOk result (λ blocks. blocks ≡ blocks_below closed count) }
{
    let mut places = no_blocks(alloc, count)?;
    put_blocks(&mut places, closed.into_vec());
    Ok(filled(alloc, places)?)
}
