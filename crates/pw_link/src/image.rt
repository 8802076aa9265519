//! The data and the map of a linked program.

ghost use Rattle.std.specs.Prelude.{◌≡◌, ◌++◌, ◌+◌, ◌≤◌, ◌<◌, ℕ, List, map, IfOk, OnOk};
ghost use Rattle.std.specs.List.{flat_map};
ghost use Rattle.pw_link.specs.Linking.{item_bytes, items_of, function_of, global_of};
ghost use Rattle.pw_link.specs.Views.{placed_view, standing_view, Tells};

use crate::data::Standing;
use crate::sites::Sites;
use crate::text::Placed;
use pw_flow::Item;
use pw_image::{DataItem, Function, GlobalObject};
use pw_items::Items;
use std::alloc::{AllocError, Global};

/// The bytes of an item: an address is four of them.
fn item_bytes(alloc: Global, sites: &Sites, item: &Item) -> Result<Vec<u8>, AllocError>
    ensures { IfOk result (λ bytes. (named : List (List ℕ × ℕ)) → Tells sites.now.names.entries named → bytes.items ≡ item_bytes named item.now) }
{
    match item {
        Item::Bytes(bytes) => Vec::from_slice(alloc, bytes.as_slice()),
        Item::Address(name, n) => {
            let address = sites.address(name.as_bytes()).wrapping_add(*n);
            Vec::from_slice(alloc, &address.to_be_bytes())
        }
    }
}

/// Adds the items of an object.
fn add_items(
    alloc: Global,
    out: &mut Items<DataItem>,
    sites: &Sites,
    standing: &Standing,
) -> Result<(), AllocError>
    ensures { OnOk result ((named : List (List ℕ × ℕ)) → Tells sites.now.names.entries named → out.new ≡ out.old ++ items_of named (standing_view standing.now)) }
{
    for (offset, item) in standing.global.items.as_slice() {
        out.push(DataItem {
            offset: standing.offset.wrapping_add(*offset),
            bytes: Items::from_vec(item_bytes(alloc, sites, item)?),
        })?;
    }
    Ok(())
}

/// The items of the data.
pub(crate) fn items(
    alloc: Global,
    sites: &Sites,
    objects: &[Standing],
) -> Result<Items<DataItem>, AllocError>
    ensures { IfOk result (λ items. (named : List (List ℕ × ℕ)) → Tells sites.now.names.entries named → items ≡ flat_map (items_of named) (map standing_view objects.now)) }
{
    let mut items = Items::new(alloc);
    for each in objects {
        add_items(alloc, &mut items, sites, each)?;
    }
    Ok(items)
}

/// The functions and routines of the map.
pub(crate) fn functions(alloc: Global, text: &[Placed]) -> Result<Items<Function>, AllocError>
    ensures { IfOk result (λ functions. functions ≡ map function_of (map placed_view text.now)) }
{
    let mut functions = Items::new(alloc);
    for each in text {
        functions.push(Function {
            name: each.piece.name.copy(alloc)?,
            address: each.address,
            frame: each.piece.frame,
        })?;
    }
    Ok(functions)
}

/// The global objects of the map.
pub(crate) fn globals(
    alloc: Global,
    start: u32,
    objects: &[Standing],
) -> Result<Items<GlobalObject>, AllocError>
    ensures { IfOk result (λ globals. globals ≡ map (global_of start) (map standing_view objects.now)) }
{
    let mut globals = Items::new(alloc);
    for each in objects {
        globals.push(GlobalObject {
            name: each.global.name.copy(alloc)?,
            address: start.wrapping_add(each.offset),
        })?;
    }
    Ok(globals)
}
