//! The weights of temporaries.

ghost use Rattle.std.specs.Prelude.{◌≡◌, ◌+◌, ◌*◌, ◌^◌, ◌==◌, ◌<◌, ℕ, min, if◌then◌else◌, length, slice_index, vec_len, count_by, All, IfOk, OnOk};
ghost use Rattle.pw_live_fronts.specs.Blocks.{IsAct, IsStretch, IsOutline};
ghost use Rattle.pw_alloc_temps.specs.Weights.{counted_in, depth_limit, weight_in, weight};

use pw_live_fronts::{Act, Outline, Stretch};
use std::alloc::{AllocError as NoMemory, Global};

/// What a use or a definition inside so many loops counts: 8 for each, up to the fourth.
fn factor(depth: u32) -> u64
    ensures { result ≡ 8 ^ (min depth_limit depth) }
{
    match depth {
        0 => 1,
        1 => 8,
        2 => 64,
        3 => 512,
        _ => 4096,
    }
}

/// Adds what a use or a definition counts. A sum past 64 bits is want of memory.
fn count(weights: &mut [u64], t: u32, factor: u64) -> Result<(), NoMemory>
    requires { t < length weights.old }
    ensures length { length weights.new ≡ length weights.old }
    ensures value { OnOk result ((u : ℕ) → slice_index weights.new u ≡ slice_index weights.old u + (if t == u then factor else 0)) }
{
    let place = t as usize;
    let weight = weights[place];
    let Some(sum) = weight.checked_add(factor) else {
        return Err(NoMemory);
    };
    weights[place] = sum;
    Ok(())
}

/// Adds what the temporaries count that are read.
fn count_uses(weights: &mut [u64], uses: &[u32], factor: u64) -> Result<(), NoMemory>
    requires { All (λ t. t < length weights.old) uses.now }
    ensures length { length weights.new ≡ length weights.old }
    ensures value { OnOk result ((u : ℕ) → slice_index weights.new u ≡ slice_index weights.old u + factor * count_by (λ t. t == u) uses.now) }
{
    for place in 0..uses.len() {
        count(weights, uses[place], factor)?;
    }
    Ok(())
}

/// Adds what an operation counts.
fn count_act(weights: &mut [u64], act: &Act, factor: u64) -> Result<(), NoMemory>
    requires { IsAct (length weights.old) act.now }
    ensures length { length weights.new ≡ length weights.old }
    ensures value { OnOk result ((u : ℕ) → slice_index weights.new u ≡ slice_index weights.old u + factor * counted_in u act.now) }
{
    count_uses(weights, act.uses(), factor)?;
    match act.defines() {
        Some(t) => {
            count(weights, t, factor)?;
            Ok(())
        }
        None => Ok(()),
    }
}

/// Adds what a block counts.
fn count_block(weights: &mut [u64], block: &Stretch, blocks: usize) -> Result<(), NoMemory>
    requires { IsStretch (length weights.old) blocks block.now }
    ensures length { length weights.new ≡ length weights.old }
    ensures value { OnOk result ((u : ℕ) → slice_index weights.new u ≡ slice_index weights.old u + weight_in u block.now) }
{
    let factor = factor(block.depth());
    for act in block.acts() {
        count_act(weights, act, factor)?;
    }
    count_uses(weights, block.uses(), factor)?;
    Ok(())
}

/// The weight of each temporary of a function.
pub(crate) fn weigh(alloc: Global, f: &Outline) -> Result<Vec<u64>, NoMemory>
    requires { IsOutline f.now }
    ensures count { IfOk result (λ v. vec_len v ≡ f.now.temps) }
    ensures each { IfOk result (λ v. (t : ℕ) → t < f.now.temps → slice_index v.items t ≡ weight f.now t) }
{
    let mut weights = vec![in alloc; 0; f.temps() as usize]?;
    let blocks = f.blocks();
    for place in 0..blocks.len() {
        count_block(&mut weights, &blocks[place], blocks.len())?;
    }
    for t in 0..f.params() {
        count(&mut weights, t, 1)?;
    }
    Ok(weights)
}
