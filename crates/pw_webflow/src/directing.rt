//! Direction.

ghost use Rattle.std.specs.Prelude.{◌≡◌, IfOk, map};
ghost use Rattle.pw_webflow.specs.Direction.{register_of, directed_op, directed_block, directed};
ghost use Rattle.pw_flow.specs.ValidFlow.{IsFunction};
ghost use Rattle.pw_db.specs.Database.{IsDirectives};
ghost use Rattle.pw_webflow.specs.ValidWebs.{IsWebFn};

use crate::copying::copy_op;
use crate::web::{WebBlock, WebFn, WebOp};
use pw_db::{Directives, Role, Web};
use pw_flow::{Block, FlowFn, Op};
use pw_items::Items;
use pw_value::Name;
use std::alloc::{AllocError, Global};

/// The register of a global among a function's webs.
fn register(webs: &[(Web, Role)], global: &Name) -> Option<u8>
    ensures { result ≡ register_of webs.now global.now }
{
    let mut rest = webs;
    while let [web, after @ ..] = rest {
        if web.0.global == *global {
            return Some(web.0.reg);
        }
        rest = after;
    }
    None
}

/// An operation under the function's webs: an access of a global that has a register becomes a copy from
/// or to it.
fn direct_op(alloc: Global, webs: &[(Web, Role)], op: &Op) -> Result<WebOp, AllocError>
    ensures { IfOk result (λ o. o ≡ directed_op webs.now op.now) }
{
    match op {
        Op::LoadG(t, g, k) => match register(webs, g) {
            Some(r) => Ok(WebOp::Read(*t, r)),
            None => Ok(WebOp::Flow(Op::LoadG(*t, g.copy(alloc)?, *k))),
        },
        Op::StoreG(g, a, k) => match register(webs, g) {
            Some(r) => Ok(WebOp::Write(r, *a)),
            None => Ok(WebOp::Flow(Op::StoreG(g.copy(alloc)?, *a, *k))),
        },
        other => Ok(WebOp::Flow(copy_op(alloc, other)?)),
    }
}

fn direct_ops(alloc: Global, webs: &[(Web, Role)], ops: &[Op]) -> Result<Items<WebOp>, AllocError>
    ensures { IfOk result (λ v. v ≡ map (directed_op webs.now) ops.now) }
{
    let mut directed = Items::new(alloc);
    for op in ops {
        directed.push(direct_op(alloc, webs, op)?)?;
    }
    Ok(directed)
}

fn direct_block(alloc: Global, webs: &[(Web, Role)], block: &Block) -> Result<WebBlock, AllocError>
    ensures { IfOk result (λ b. b ≡ directed_block webs.now block.now) }
{
    Ok(WebBlock {
        depth: block.depth,
        ops: direct_ops(alloc, webs, block.ops.as_slice())?,
        end: block.end,
    })
}

fn direct_blocks(
    alloc: Global,
    webs: &[(Web, Role)],
    blocks: &[Block],
) -> Result<Items<WebBlock>, AllocError>
    ensures { IfOk result (λ v. v ≡ map (directed_block webs.now) blocks.now) }
{
    let mut directed = Items::new(alloc);
    for block in blocks {
        directed.push(direct_block(alloc, webs, block)?)?;
    }
    Ok(directed)
}

/// A function under its directives: reads and writes of a global that one of its webs holds become copies
/// from and to that web's register, and nothing else changes.
#[tactic(auto, unfolding(crate::specs::Direction::directed))]
fn apply(alloc: Global, f: &FlowFn, d: &Directives) -> Result<WebFn, AllocError>
    ensures { IfOk result (λ r. r ≡ directed f.now d.now) }
{
    let blocks = direct_blocks(alloc, d.webs.as_slice(), f.blocks.as_slice())?;
    let slots = Items::from_slice(alloc, f.slots.as_slice())?;
    Ok(WebFn {
        name: f.name.copy(alloc)?,
        shape: f.shape.copy(alloc)?,
        params: f.params,
        temps: f.temps,
        slots,
        blocks,
        directives: d.copy(alloc)?,
    })
}

/// A lawful function under lawful directives.
pub fn direct(alloc: Global, f: &FlowFn, d: &Directives) -> Result<WebFn, AllocError>
    requires function { IsFunction f.now }
    requires directives { IsDirectives d.now }
    ensures value { IfOk result (λ r. r ≡ directed f.now d.now) }
    ensures lawful { IfOk result (λ r. IsWebFn r) }
{
    let r = apply(alloc, f, d)?;
    Ok(r)
}
