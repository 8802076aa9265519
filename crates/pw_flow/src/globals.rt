//! Global objects: copies of them, and lists by reference.

ghost use Rattle.std.specs.Prelude.{◌≡◌, ◌++◌, map, IfOk, OnOk};

use crate::flow::{FlowGlobal, Item};
use pw_items::Items;
use std::alloc::{AllocError, Global};

/// The same part of an object's initial bytes again.
fn copy_item(alloc: Global, item: &Item) -> Result<Item, AllocError>
    ensures { IfOk result (λ i. i ≡ item.now) }
{
    match item {
        Item::Bytes(bytes) => {
            let bytes = Items::from_slice(alloc, bytes.as_slice())?;
            Ok(Item::Bytes(bytes))
        }
        Item::Address(name, offset) => Ok(Item::Address(name.copy(alloc)?, *offset)),
    }
}

/// The same parts again, each with its offset.
fn copy_items(alloc: Global, items: &[(u32, Item)]) -> Result<Items<(u32, Item)>, AllocError>
    ensures { IfOk result (λ v. v ≡ items.now) }
{
    let mut copies = Items::new(alloc);
    for (offset, item) in items {
        copies.push((*offset, copy_item(alloc, item)?))?;
    }
    Ok(copies)
}

/// The same global object again.
fn copy_global(alloc: Global, global: &FlowGlobal) -> Result<FlowGlobal, AllocError>
    ensures { IfOk result (λ g. g ≡ global.now) }
{
    Ok(FlowGlobal {
        name: global.name.copy(alloc)?,
        size: global.size,
        shape: global.shape.copy(alloc)?,
        kind: global.kind,
        volatile: global.volatile,
        items: copy_items(alloc, global.items.as_slice())?,
    })
}

/// The same global objects again, in order. Fails only for want of memory.
pub fn copy_globals(alloc: Global, globals: &[FlowGlobal]) -> Result<Items<FlowGlobal>, AllocError>
    ensures { IfOk result (λ v. v ≡ globals.now) }
{
    let mut copies = Items::new(alloc);
    for global in globals {
        copies.push(copy_global(alloc, global)?)?;
    }
    Ok(copies)
}

/// Adds global objects by reference, in order, behind those that are there.
pub fn add_globals<'a>(
    all: &mut Vec<&'a FlowGlobal>,
    globals: &'a [FlowGlobal],
) -> Result<(), AllocError>
    ensures { OnOk result (map (λ g. g.now) all.new.items ≡ map (λ g. g.now) all.old.items ++ globals.now) }
{
    for each in globals {
        all.push(each)?;
    }
    Ok(())
}
