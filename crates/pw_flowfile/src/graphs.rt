//! Reading the functions of a flow file.

ghost use Rattle.std.specs.Prelude.{◌≡◌, ◌*◌, ◌≤◌, ◌&&◌, ◌∷◌, ℕ, nat_le, nat_lt, List, [], length, map, IfOk, IfErr, ◌≢◌};
ghost use Rattle.pw_value.specs.Limits.{room_limit};
ghost use Rattle.pw_fields.specs.Fields.{u32_at, checked, items_at, repeated};
ghost use Rattle.pw_fields.specs.FieldFaults.{AnswersField};
ghost use Rattle.pw_fields.specs.FieldNames.{IsRisingFrom};
ghost use Rattle.pw_flowfile.specs.Reading.{block_at, slot_at, next_room, code_at, function_body_at, function_at, next_function, seen_after};
ghost use Rattle.pw_flowfile.specs.Marks.{Marks};

use crate::met::read_fresh;
use pw_fields::{FieldFault, read_text_in_place, read_u32};
use pw_flow::{Block, FlowFn};
use pw_flow_ops::{Counts, read_end, read_few, read_ops};
use pw_items::Items;
use pw_value::limits::ROOM_LIMIT;
use pw_value::{Name, Shape, slot_room};
use std::alloc::Global;

/// The most bytes that a function's temporaries and slots come to.
const WIDE_ROOM_LIMIT: u64 = ROOM_LIMIT as u64;

/// A block, in a function of so many blocks.
#[tactic(auto, unfolding(crate::specs::Reading::block_at))]
fn read_block<'a>(
    alloc: Global,
    names: &[Name],
    at: Counts,
    blocks: u32,
    bytes: &'a [u8],
) -> Result<(Block, &'a [u8]), FieldFault>
    ensures { AnswersField (λ x. (x.0, x.1.now)) result (block_at names.now at.temps at.slots blocks bytes.now) }
{
    let (depth, rest) = read_u32(bytes)?;
    let (count, rest) = read_u32(rest)?;
    let (ops, rest) = read_ops(alloc, names, at, count, rest)?;
    let (end, rest) = read_end(at.temps, blocks, rest)?;
    Ok((Block { depth, ops, end }, rest))
}

/// All blocks of a function.
fn read_blocks<'a>(
    alloc: Global,
    names: &[Name],
    at: Counts,
    count: u32,
    bytes: &'a [u8],
) -> Result<(Items<Block>, &'a [u8]), FieldFault>
    ensures { AnswersField (λ x. (x.0, x.1.now)) result (repeated (block_at names.now at.temps at.slots count) count bytes.now) }
{
    let mut blocks = Items::new(alloc);
    let mut rest = bytes;
    for _ in 0..count {
        let (block, after) = read_block(alloc, names, at, count, rest)?;
        blocks.push(block)?;
        rest = after;
    }
    Ok((blocks, rest))
}

/// A slot's size, behind temporaries and slots of so many bytes.
#[tactic(auto, unfolding(crate::specs::Reading::slot_at))]
fn read_slot(room: u64, bytes: &[u8]) -> Result<(u32, &[u8]), FieldFault>
    ensures found { AnswersField (λ x. (x.0, x.1.now)) result (slot_at room bytes.now) }
    ensures small { IfOk result (λ x. room ≤ room_limit) }
    ensures no_memory { IfErr result (λ e. e ≢ FieldFault.NoMemory) }
{
    let (size, rest) = read_u32(bytes)?;
    let more = slot_room(size);
    if room <= WIDE_ROOM_LIMIT && more <= WIDE_ROOM_LIMIT - room {
        Ok((size, rest))
    } else {
        Err(FieldFault::Fault { left: bytes.len() })
    }
}

/// So many slots, behind temporaries of so many bytes.
fn read_slots(
    alloc: Global,
    room: u64,
    count: u32,
    bytes: &[u8],
) -> Result<(Items<u32>, &[u8]), FieldFault>
    ensures { AnswersField (λ x. (x.0, x.1.now)) result (items_at slot_at next_room count room bytes.now) }
{
    let mut slots = Items::new(alloc);
    let mut rest = bytes;
    let mut used = room;
    for _ in 0..count {
        let (slot, after) = read_slot(used, rest)?;
        used += slot_room(slot);
        slots.push(slot)?;
        rest = after;
    }
    Ok((slots, rest))
}

/// The count of temporaries: at least that of the parameters.
fn read_temp_count(params: u32, bytes: &[u8]) -> Result<(u32, &[u8]), FieldFault>
    ensures found { AnswersField (λ x. (x.0, x.1.now)) result (checked (λ t. nat_le params t && nat_le (4 * t) room_limit) u32_at bytes.now) }
    ensures no_memory { IfErr result (λ e. e ≢ FieldFault.NoMemory) }
{
    let (temps, rest) = read_u32(bytes)?;
    if params <= temps && 4 * u64::from(temps) <= WIDE_ROOM_LIMIT {
        Ok((temps, rest))
    } else {
        Err(FieldFault::Fault { left: bytes.len() })
    }
}

/// The count of blocks: at least one.
fn read_block_count(bytes: &[u8]) -> Result<(u32, &[u8]), FieldFault>
    ensures found { AnswersField (λ x. (x.0, x.1.now)) result (checked (λ n. nat_lt 0 n) u32_at bytes.now) }
    ensures no_memory { IfErr result (λ e. e ≢ FieldFault.NoMemory) }
{
    let (count, rest) = read_u32(bytes)?;
    if count > 0 {
        Ok((count, rest))
    } else {
        Err(FieldFault::Fault { left: bytes.len() })
    }
}

/// The slots and the blocks of a function with so many temporaries.
#[tactic(auto, unfolding(crate::specs::Reading::code_at))]
fn read_code<'a>(
    alloc: Global,
    names: &[Name],
    temps: u32,
    bytes: &'a [u8],
) -> Result<((Items<u32>, Items<Block>), &'a [u8]), FieldFault>
    ensures { AnswersField (λ x. ((x.0.0, x.0.1), x.1.now)) result (code_at names.now temps bytes.now) }
{
    let (slot_count, rest) = read_u32(bytes)?;
    let (slots, rest) = read_slots(alloc, 4 * u64::from(temps), slot_count, rest)?;
    let (count, rest) = read_block_count(rest)?;
    let at = Counts {
        temps,
        slots: slot_count as usize,
    };
    let (blocks, rest) = read_blocks(alloc, names, at, count, rest)?;
    Ok(((slots, blocks), rest))
}

/// A function of this name, whose name was read.
#[tactic(auto, unfolding(crate::specs::Reading::function_body_at))]
fn read_function_body<'a>(
    alloc: Global,
    names: &[Name],
    name: &Name,
    bytes: &'a [u8],
) -> Result<(FlowFn, &'a [u8]), FieldFault>
    ensures found { AnswersField (λ x. (x.0, x.1.now)) result (function_body_at names.now name.now bytes.now) }
    ensures named { IfOk result (λ x. x.0.name ≡ name.now) }
{
    let (shape, rest) = read_text_in_place(bytes)?;
    let (params, rest) = read_few(rest)?;
    let (temps, rest) = read_temp_count(params, rest)?;
    let ((slots, blocks), rest) = read_code(alloc, names, temps, rest)?;
    let function = FlowFn {
        name: name.copy(alloc)?,
        shape: Shape::new(Vec::from_slice(alloc, shape)?),
        params,
        temps,
        slots,
        blocks,
    };
    Ok((function, rest))
}

/// A function whose name was not met before.
fn read_function<'a>(
    alloc: Global,
    names: &[Name],
    met: &mut [bool],
    bytes: &'a [u8],
) -> Result<(FlowFn, &'a [u8]), FieldFault>
    requires { length met.old ≡ length names.now }
    ensures found { (seen : List (List ℕ)) → Marks names.now seen met.old → AnswersField (λ x. (x.0, x.1.now)) result (function_at names.now seen bytes.now) }
    ensures marked { IfOk result (λ x. (seen : List (List ℕ)) → IsRisingFrom [] names.now → Marks names.now seen met.old → Marks names.now (x.0.name ∷ seen) met.new) }
{
    let (name, rest) = read_fresh(names, met, bytes)?;
    read_function_body(alloc, names, name, rest)
}

/// So many functions.
pub fn read_functions<'a>(
    alloc: Global,
    names: &[Name],
    met: &mut [bool],
    count: u32,
    bytes: &'a [u8],
) -> Result<(Items<FlowFn>, &'a [u8]), FieldFault>
    requires count { length met.old ≡ length names.now }
    requires rising { IsRisingFrom [] names.now }
    ensures { (seen : List (List ℕ)) → Marks names.now seen met.old → AnswersField (λ x. (x.0, x.1.now)) result (items_at (function_at names.now) next_function count seen bytes.now) }
{
    let mut functions = Items::new(alloc);
    let mut rest = bytes;
    for _ in 0..count {
        let (function, after) = read_function(alloc, names, met, rest)?;
        functions.push(function)?;
        rest = after;
    }
    Ok((functions, rest))
}
