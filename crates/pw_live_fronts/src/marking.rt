//! What each block uses before it defines it, and what it defines, as rows of bits over the exposed temporaries.

ghost use Rattle.std.specs.Prelude.{◌≡◌, ◌⊎◌, ◌+◌, ◌-◌, ◌<◌, ℕ, length, slice_get, vec_len, All, Contains, Some, IfOk, IfSome, ◌↔◌};
ghost use Rattle.pw_fix.specs.Table.{HoldsAt};
ghost use Rattle.pw_flow.specs.Outline.{Stretch as StretchValue};
ghost use Rattle.pw_live_fronts.specs.Blocks.{IsAct, IsStretch, IsOutline};
ghost use Rattle.pw_live_fronts.specs.Flowing.{node_of};
ghost use Rattle.pw_live_fronts.specs.Exposing.{IsNumber, IsRead, IsWritten, IsUsedFirst, IsDefined};

use crate::named::Exposed;
use crate::outline::{Act, Outline, Stretch};
use pw_fix::BitRows;
use std::alloc::{AllocError as NoMemory, Global};

/// Of each node the exposed temporaries that its block uses before it defines them, and those that it defines, by their
/// numbers.
#[derive(Drop)]
pub(crate) struct Marks {
    pub uses: BitRows,
    pub defines: BitRows,
    pub ghost count: { vec_len uses.rows ≡ vec_len defines.rows },
    pub ghost len: { uses.len ≡ defines.len },
}

/// Marks a use, unless the block defines the temporary before.
fn mark_use(uses: &mut BitRows, defines: &BitRows, exposed: &Exposed, node: usize, t: u32)
    requires node { node < vec_len uses.old.rows }
    requires count { vec_len defines.now.rows ≡ vec_len uses.old.rows }
    requires len { uses.old.len ≡ length exposed.now.names.items }
    requires temp { t < vec_len exposed.now.numbers }
    ensures count { vec_len uses.new.rows ≡ vec_len uses.old.rows }
    ensures len { uses.new.len ≡ uses.old.len }
    ensures holds { (m i : ℕ) → HoldsAt uses.new m i ↔ (HoldsAt uses.old m i ⊎ ((m ≡ node) × IsNumber exposed.now t i × ¬ HoldsAt defines.now node i)) }
{
    let Some(i) = exposed.numbers[t as usize] else {
        return;
    };
    if defines.contains(node, i) {
        return;
    }
    uses.insert(node, i);
}

/// Marks what an operation or the end of a block reads.
fn mark_uses(uses: &mut BitRows, defines: &BitRows, exposed: &Exposed, node: usize, read: &[u32])
    requires node { node < vec_len uses.old.rows }
    requires count { vec_len defines.now.rows ≡ vec_len uses.old.rows }
    requires len { uses.old.len ≡ length exposed.now.names.items }
    requires temps { All (λ t. t < vec_len exposed.now.numbers) read.now }
    ensures count { vec_len uses.new.rows ≡ vec_len uses.old.rows }
    ensures len { uses.new.len ≡ uses.old.len }
    ensures holds { (m i : ℕ) → HoldsAt uses.new m i ↔ (HoldsAt uses.old m i ⊎ ((m ≡ node) × IsRead exposed.now read.now i × ¬ HoldsAt defines.now node i)) }
{
    for &t in read {
        mark_use(uses, defines, exposed, node, t);
    }
}

/// Marks a definition of a temporary.
fn mark_written(defines: &mut BitRows, exposed: &Exposed, node: usize, t: u32)
    requires node { node < vec_len defines.old.rows }
    requires len { defines.old.len ≡ length exposed.now.names.items }
    requires temp { t < vec_len exposed.now.numbers }
    ensures count { vec_len defines.new.rows ≡ vec_len defines.old.rows }
    ensures len { defines.new.len ≡ defines.old.len }
    ensures holds { (m i : ℕ) → HoldsAt defines.new m i ↔ (HoldsAt defines.old m i ⊎ ((m ≡ node) × IsNumber exposed.now t i)) }
{
    let Some(i) = exposed.numbers[t as usize] else {
        return;
    };
    defines.insert(node, i);
}

/// Marks what an operation defines.
fn mark_definition(defines: &mut BitRows, exposed: &Exposed, node: usize, written: Option<u32>)
    requires node { node < vec_len defines.old.rows }
    requires len { defines.old.len ≡ length exposed.now.names.items }
    requires temp { IfSome written (λ t. t < vec_len exposed.now.numbers) }
    ensures count { vec_len defines.new.rows ≡ vec_len defines.old.rows }
    ensures len { defines.new.len ≡ defines.old.len }
    ensures holds { (m i : ℕ) → HoldsAt defines.new m i ↔ (HoldsAt defines.old m i ⊎ ((m ≡ node) × IsWritten exposed.now written i)) }
{
    let Some(t) = written else {
        return;
    };
    mark_written(defines, exposed, node, t);
}

/// Marks what an operation reads, and then what it defines.
fn mark_act(uses: &mut BitRows, defines: &mut BitRows, exposed: &Exposed, node: usize, act: &Act)
    requires node { node < vec_len uses.old.rows }
    requires count { vec_len defines.old.rows ≡ vec_len uses.old.rows }
    requires uses_len { uses.old.len ≡ length exposed.now.names.items }
    requires defines_len { defines.old.len ≡ length exposed.now.names.items }
    requires act { IsAct (vec_len exposed.now.numbers) act.now }
    ensures uses_count { vec_len uses.new.rows ≡ vec_len uses.old.rows }
    ensures uses_len { uses.new.len ≡ uses.old.len }
    ensures defines_count { vec_len defines.new.rows ≡ vec_len defines.old.rows }
    ensures defines_len { defines.new.len ≡ defines.old.len }
    ensures used { (m i : ℕ) → HoldsAt uses.new m i ↔ (HoldsAt uses.old m i ⊎ ((m ≡ node) × IsRead exposed.now act.now.uses i × ¬ HoldsAt defines.old node i)) }
    ensures defined { (m i : ℕ) → HoldsAt defines.new m i ↔ (HoldsAt defines.old m i ⊎ ((m ≡ node) × IsWritten exposed.now act.now.defines i)) }
{
    mark_uses(uses, defines, exposed, node, act.uses());
    mark_definition(defines, exposed, node, act.defines());
}

/// Marks what a block uses before it defines it, and what it defines, in rows of its node that are empty.
fn mark_block(
    uses: &mut BitRows,
    defines: &mut BitRows,
    exposed: &Exposed,
    node: usize,
    block: &Stretch,
    blocks: usize,
)
    requires node { node < vec_len uses.old.rows }
    requires count { vec_len defines.old.rows ≡ vec_len uses.old.rows }
    requires uses_len { uses.old.len ≡ length exposed.now.names.items }
    requires defines_len { defines.old.len ≡ length exposed.now.names.items }
    requires block { IsStretch (vec_len exposed.now.numbers) blocks block.now }
    requires empty { (i : ℕ) → ¬ HoldsAt defines.old node i }
    ensures uses_count { vec_len uses.new.rows ≡ vec_len uses.old.rows }
    ensures uses_len { uses.new.len ≡ uses.old.len }
    ensures defines_count { vec_len defines.new.rows ≡ vec_len defines.old.rows }
    ensures defines_len { defines.new.len ≡ defines.old.len }
    ensures used { (m i : ℕ) → HoldsAt uses.new m i ↔ (HoldsAt uses.old m i ⊎ ((m ≡ node) × IsUsedFirst exposed.now block.now i)) }
    ensures defined { (m i : ℕ) → HoldsAt defines.new m i ↔ (HoldsAt defines.old m i ⊎ ((m ≡ node) × IsDefined exposed.now block.now i)) }
{
    for act in block.acts() {
        mark_act(uses, defines, exposed, node, act);
    }
    mark_uses(uses, defines, exposed, node, block.uses());
}

/// The marks of all blocks of a function.
pub(crate) fn mark_all(alloc: Global, exposed: &Exposed, f: &Outline) -> Result<Marks, NoMemory>
    requires outline { IsOutline f.now }
    requires temps { vec_len exposed.now.numbers ≡ f.now.temps }
    ensures count { IfOk result (λ marks. vec_len marks.uses.rows ≡ length f.now.blocks) }
    ensures len { IfOk result (λ marks. marks.uses.len ≡ length exposed.now.names.items) }
    ensures uses { IfOk result (λ marks. (b i : ℕ) (s : StretchValue) → slice_get f.now.blocks b ≡ Some s → HoldsAt marks.uses (node_of f.now b) i ↔ IsUsedFirst exposed.now s i) }
    ensures defines { IfOk result (λ marks. (b i : ℕ) (s : StretchValue) → slice_get f.now.blocks b ≡ Some s → HoldsAt marks.defines (node_of f.now b) i ↔ IsDefined exposed.now s i) }
{
    let blocks = f.blocks();
    let count = blocks.len();
    let len = exposed.names.len();
    let mut uses = BitRows::new(alloc, count, len)?;
    let mut defines = BitRows::new(alloc, count, len)?;
    for place in 0..count {
        let node = count - 1 - place;
        mark_block(
            &mut uses,
            &mut defines,
            exposed,
            node,
            &blocks[place],
            count,
        );
    }
    Ok(Marks { uses, defines })
}
