//! The outline of a directed function.

ghost use Rattle.std.specs.Prelude.{◌≡◌, map, IfOk};
ghost use Rattle.pw_webflow.specs.WebOutline.{web_act, web_stretch, web_outline};

use pw_items::Items;
use pw_live_fronts::{Act, Outline, Stretch};
use pw_live_outline::{act_of, end_uses, few, successors};
use pw_webflow::{WebBlock, WebFn, WebOp};
use smallvec::SmallVec;
use std::alloc::{AllocError as NoMemory, Global};

/// What an operation reads and writes, and whether it calls.
fn act(alloc: Global, op: &WebOp) -> Result<Act, NoMemory>
    ensures { IfOk result (λ a. a ≡ web_act op.now) }
{
    match op {
        WebOp::Flow(op) => act_of(alloc, op),
        WebOp::Read(t, _) => Ok(Act::new(Some(*t), SmallVec::new(alloc), false)),
        WebOp::Write(_, a) => Ok(Act::new(None, few(alloc, &[*a])?, false)),
    }
}

fn acts(alloc: Global, ops: &[WebOp]) -> Result<Items<Act>, NoMemory>
    ensures { IfOk result (λ v. v ≡ map web_act ops.now) }
{
    let mut acts = Items::new(alloc);
    for op in ops {
        acts.push(act(alloc, op)?)?;
    }
    Ok(acts)
}

fn stretch(alloc: Global, block: &WebBlock) -> Result<Stretch, NoMemory>
    ensures { IfOk result (λ s. s ≡ web_stretch block.now) }
{
    let acts = acts(alloc, block.ops.as_slice())?;
    let uses = end_uses(alloc, block.end)?;
    let next = successors(alloc, block.end)?;
    Ok(Stretch::new(block.depth, acts, uses, next))
}

/// The outline of a directed function.
pub fn outline_of(alloc: Global, f: &WebFn) -> Result<Outline, NoMemory>
    ensures { IfOk result (λ o. o ≡ web_outline f.now) }
{
    let mut blocks = Items::new(alloc);
    for block in f.blocks.as_slice() {
        blocks.push(stretch(alloc, block)?)?;
    }
    Ok(Outline::new(f.params, f.temps, blocks))
}
