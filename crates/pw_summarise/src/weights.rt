//! The weighted references of a function.

ghost use Rattle.std.specs.Prelude.{◌≡◌, ◌<◌, map, length, IfOk, IfSome, IfNone, Contains};
ghost use Rattle.std.specs.List.{HoldsAt};
ghost use Rattle.pw_files.specs.Rising.{IsRising};
ghost use Rattle.pw_summarise.specs.Summarises.{deepest, most, weight as weight_of, IsOrdered, reference, referenced, in_function};
ghost use Rattle.pw_summarise.specs.Tallies.{with_weight as sum_with, with_read, with_write, with_op, with_ops, with_blocks, none_yet};

use crate::names::{Part, function_names};
use pw_flow::{Block, FlowFn, Op};
use pw_items::Items;
use pw_summary::WEIGHT_BOUND;
use pw_value::Name;
use std::alloc::{AllocError, Global};

/// The greatest weight that a summary holds.
pub const WEIGHT_LIMIT: u64 = WEIGHT_BOUND - 1;

/// The depth from which on deeper loops weigh no more.
pub const DEEPEST: u32 = 4;

/// The limits are those that the definitions speak of.
pub fn limits_of_weights()
    ensures most { WEIGHT_LIMIT ≡ most }
    ensures deepest { DEEPEST ≡ deepest }
{}

/// The weight of a read or a write inside so many loops.
fn weight(depth: u32) -> u64
    ensures { result ≡ weight_of depth }
{
    let depth = if depth < DEEPEST { depth } else { DEEPEST };
    8u64.pow(depth)
}

/// A sum with another weight, as far as a summary can hold it.
fn with_weight(sum: u64, weight: u64) -> u64
    ensures { result ≡ sum_with sum weight }
{
    let sum = sum.saturating_add(weight);
    if sum < WEIGHT_LIMIT {
        sum
    } else {
        WEIGHT_LIMIT
    }
}

/// Where a global stands, by halves.
fn find(refs: &[(Name, u64, u64)], name: &Name) -> Option<usize>
    requires { IsRising (map (λ r. r.0) refs.now) }
    ensures within { IfSome result (λ place. place < length refs.now) }
    ensures found { IfSome result (λ place. HoldsAt (λ r. r.0 ≡ name.now) refs.now place) }
    ensures none { IfNone result (¬ Contains (map (λ r. r.0) refs.now) name.now) }
{
    match refs.binary_search_by(|reference| reference.0.cmp(name)) {
        Ok(place) => Some(place),
        Err(_) => None,
    }
}

/// A read of a global.
fn add_read(refs: &mut [(Name, u64, u64)], weight: u64, name: &Name)
    requires { IsRising (map (λ r. r.0) refs.old) }
    ensures { refs.new ≡ map (with_read weight name.now) refs.old }
{
    if let Some(place) = find(refs, name) {
        refs[place].1 = with_weight(refs[place].1, weight);
    }
}

/// A write of a global.
fn add_write(refs: &mut [(Name, u64, u64)], weight: u64, name: &Name)
    requires { IsRising (map (λ r. r.0) refs.old) }
    ensures { refs.new ≡ map (with_write weight name.now) refs.old }
{
    if let Some(place) = find(refs, name) {
        refs[place].2 = with_weight(refs[place].2, weight);
    }
}

/// What an operation of this weight reads or writes.
fn add_op(refs: &mut [(Name, u64, u64)], weight: u64, op: &Op)
    requires { IsRising (map (λ r. r.0) refs.old) }
    ensures { refs.new ≡ map (λ r. with_op weight r op.now) refs.old }
{
    match op {
        Op::LoadG(_, name, _) => add_read(refs, weight, name),
        Op::StoreG(name, _, _) => add_write(refs, weight, name),
        _ => {}
    }
}

/// What operations of this weight read and write.
fn add_ops(refs: &mut [(Name, u64, u64)], weight: u64, ops: &[Op])
    requires { IsRising (map (λ r. r.0) refs.old) }
    ensures { refs.new ≡ map (with_ops weight ops.now) refs.old }
{
    for op in ops {
        add_op(refs, weight, op);
    }
}

/// What blocks read and write.
fn add_blocks(refs: &mut [(Name, u64, u64)], blocks: &[Block])
    requires { IsRising (map (λ r. r.0) refs.old) }
    ensures { refs.new ≡ map (with_blocks blocks.now) refs.old }
{
    for block in blocks {
        add_ops(refs, weight(block.depth), block.ops.as_slice());
    }
}

/// Globals that no operation has read or written yet.
fn unweighted(alloc: Global, names: Items<Name>) -> Result<Vec<(Name, u64, u64)>, AllocError>
    ensures { IfOk result (λ v. v.items ≡ map none_yet names) }
{
    let mut refs = Vec::new(alloc);
    for name in names.into_vec() {
        refs.push((name, 0, 0))?;
    }
    Ok(refs)
}

/// The globals that a function reads or writes by name, with its weighted reads and weighted writes.
pub(crate) fn references(
    alloc: Global,
    function: &FlowFn,
) -> Result<Items<(Name, u64, u64)>, AllocError>
    ensures { IfOk result (λ v. IsOrdered (λ r. r.0) (map (reference function.now) (in_function referenced function.now)) v) }
{
    let names = function_names(alloc, Part::Referenced, function)?;
    let mut refs = unweighted(alloc, names)?;
    add_blocks(&mut refs, function.blocks.as_slice());
    Ok(Items::from_vec(refs))
}
