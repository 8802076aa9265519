//! The frame of a function.

ghost use Rattle.std.specs.Prelude.{ℤ, List, ◌∷◌, ◌≡◌, ◌≤◌, ◌<◌, ◌+◌, ◌*◌, ◌^◌, max, map, IfOk};
ghost use Rattle.pw_value.specs.Limits.{parameter_limit};
ghost use Rattle.std.specs.List.{flat_map};
ghost use Rattle.pw_webflow.specs.declared.web.WebBlock.{WebBlock as BlockValue};
ghost use Rattle.pw_alloc.specs.Frames.{argument_count, most_arguments, ops_of, head_bytes, first_stacked, link_place, head_size, below, last_reach, slots_begin, reaches_from};
ghost use Rattle.pw_value.specs.Rounding.{round8, slot_room};

use pw_flow::Op;
use pw_items::Items;
use pw_value::{round8, slot_room};
use pw_webflow::{WebBlock, WebFn, WebOp};
use std::alloc::{AllocError, Global};

/// The bytes of every frame that stand nearest to the stack pointer, without the arguments of calls behind the fourth.
pub const HEAD_BYTES: u32 = 48;

/// How far below the stack pointer of the caller the fifth argument of a call stands, in bytes.
pub const FIRST_STACKED: u32 = 52;

/// How far below the stack pointer of the caller a function keeps the address that it returns to, in bytes.
pub const LINK_PLACE: u32 = 20;

/// The numbers of frames are those that the definitions speak of.
pub fn numbers_of_frames()
    ensures head { HEAD_BYTES ≡ head_bytes }
    ensures stacked { FIRST_STACKED ≡ first_stacked }
    ensures link { LINK_PLACE ≡ link_place }
{}

/// How many arguments an operation has, where it is a call.
fn argument_count(op: &WebOp) -> usize
    ensures { result ≡ argument_count op.now }
{
    match op {
        WebOp::Flow(Op::Call(_, _, args)) => args.len(),
        WebOp::Flow(Op::CallInd(_, _, _, args)) => args.len(),
        _ => 0,
    }
}

/// The greatest of a count and those of the arguments of operations.
fn most_of_ops(least: usize, ops: &[WebOp]) -> usize
    ensures { result ≡ max least (most_arguments ops.now) }
{
    let mut most = least;
    let mut rest = ops;
    while let [op, after @ ..] = rest {
        most = most.max(argument_count(op));
        rest = after;
    }
    most
}

/// The greatest of a count and those of the arguments of the calls of a block.
fn most_of_block(least: usize, block: &WebBlock) -> usize
    ensures { (rest : List BlockValue) → max result (most_arguments (flat_map (λ b. b.ops) rest)) ≡ max least (most_arguments (flat_map (λ b. b.ops) (block.now ∷ rest))) }
{
    most_of_ops(least, block.ops.as_slice())
}

/// The greatest count of arguments of the calls of blocks.
fn most_arguments(blocks: &[WebBlock]) -> usize
    ensures { result ≡ most_arguments (flat_map (λ b. b.ops) blocks.now) }
{
    let mut most = 0;
    let mut rest = blocks;
    while let [block, after @ ..] = rest {
        most = most_of_block(most, block);
        rest = after;
    }
    most
}

/// What stands nearest to the stack pointer: the callee's words, and the arguments of calls behind the
/// fourth.
pub fn head_size(f: &WebFn) -> u32
    requires { most_arguments (ops_of f.now) ≤ parameter_limit }
    ensures value { result ≡ head_size f.now }
    ensures small { result ≤ head_bytes + 4 * parameter_limit }
{
    let most = most_arguments(f.blocks.as_slice()) as u32;
    HEAD_BYTES + 4 * most.saturating_sub(4)
}

/// The offset of the word that ends so many bytes below the stack pointer.
pub fn below(bytes: u32) -> i32
    requires { bytes < 2 ^ 31 }
    ensures { result ≡ below bytes }
{
    -(bytes as i32)
}

/// A part of a frame, rounded up to a multiple of 8.
fn rounded(bytes: u32) -> u32
    requires { bytes < 2 ^ 31 }
    ensures value { result ≡ round8 bytes }
    ensures up { bytes ≤ result }
{
    round8(u64::from(bytes)) as u32
}

/// Where the slots begin, with so many saved registers and temporaries in the frame.
pub fn slots_begin(head: u32, saved: u32, temps: u32) -> u32
    requires { head + 4 * saved + 4 * temps < 2 ^ 31 }
    ensures { result ≡ slots_begin head saved temps }
{
    rounded(head + 4 * saved + 4 * temps)
}

/// How far a slot reaches behind others.
fn next_reach(at: u32, size: u32) -> u32
    requires { at + slot_room size < 2 ^ 31 }
    ensures value { result ≡ at + slot_room size }
    ensures small { result < 2 ^ 31 }
{
    at + slot_room(size) as u32
}

/// How far the last slot reaches.
pub fn last_reach(begin: u32, slots: &[u32]) -> u32
    requires { last_reach begin slots.now < 2 ^ 31 }
    ensures { result ≡ last_reach begin slots.now }
{
    let mut at = begin;
    let mut rest = slots;
    while let [size, after @ ..] = rest {
        at = next_reach(at, *size);
        rest = after;
    }
    at
}

/// The offsets of slots from the stack pointer.
pub fn slot_offsets(alloc: Global, begin: u32, slots: &[u32]) -> Result<Items<i32>, AllocError>
    requires { last_reach begin slots.now < 2 ^ 31 }
    ensures { IfOk result (λ offsets. offsets ≡ map below (reaches_from begin slots.now)) }
{
    let mut offsets = Items::new(alloc);
    let mut at = begin;
    let mut rest = slots;
    while let [size, after @ ..] = rest {
        at = next_reach(at, *size);
        offsets.push(below(at))?;
        rest = after;
    }
    Ok(offsets)
}
