//! The parts of initialisers as bytes (ISO C90 6.5.7).

ghost use Rattle.std.specs.Prelude.{◌≡◌, map, option_map, unwrap_or, [], IfOk, OnOk, length};
ghost use Rattle.pw_value.specs.declared.value.Byte.TheVariants as B;
ghost use Rattle.pw_value.specs.Values.{pieces_of};
ghost use Rattle.pw_typed.specs.Views.{view_item, view_placed};
ghost use Rattle.pw_cmean.specs.Worlds as worlds;
ghost use Rattle.pw_interp_world.specs.Views.{view_program};

use pw_interp_state::write_bytes;
use pw_interp_world::World;
use pw_lower_forms::full_name;
use pw_typed::TItem;
use pw_value::{Byte, Name, Pointer};
use std::alloc::{AllocError, Global};

/// Numbers as bytes of an object.
fn numbers(alloc: Global, bytes: &[u8]) -> Result<Vec<Byte>, AllocError>
    ensures { IfOk result (λ v. v.items ≡ map B.Num bytes.now) }
{
    let mut numbers = Vec::new(alloc);
    for byte in bytes {
        numbers.push(Byte::Num(*byte))?;
    }
    Ok(numbers)
}

/// A pointer as its four pieces; nothing where there is none.
fn pieces(alloc: Global, pointer: Option<Pointer>) -> Result<Vec<Byte>, AllocError>
    ensures { IfOk result (λ v. v.items ≡ unwrap_or (option_map pieces_of pointer) []) }
{
    let mut pieces = Vec::new(alloc);
    if let Some(p) = pointer {
        pieces.push(Byte::Piece(p, 0))?;
        pieces.push(Byte::Piece(p, 1))?;
        pieces.push(Byte::Piece(p, 2))?;
        pieces.push(Byte::Piece(p, 3))?;
    }
    Ok(pieces)
}

/// The bytes of a part of an initialiser of the module of this name.
fn item_bytes(
    alloc: Global,
    world: &World,
    home: &Name,
    item: &TItem,
) -> Result<Vec<Byte>, AllocError>
    ensures { IfOk result (λ v. v.items ≡ worlds.item_bytes (view_program world.now.parts.now) home.now (view_item item.now)) }
{
    match item {
        TItem::Bytes(bytes) => numbers(alloc, bytes),
        TItem::Address(symbol, offset) => {
            let name = full_name(alloc, home, symbol)?;
            pieces(alloc, world.pointer_to(name.as_bytes(), *offset))
        }
    }
}

/// Puts the parts of an initialiser into their places.
#[tactic(auto, using(crate::proofs::ItemLemmas::item_put))]
pub(crate) fn put_items(
    alloc: Global,
    world: &World,
    home: &Name,
    items: &[(u32, TItem)],
    bytes: &mut [Byte],
) -> Result<(), AllocError>
    ensures { OnOk result (bytes.new ≡ worlds.with_items (view_program world.now.parts.now) home.now (map view_placed items.now) bytes.old) }
{
    for placed in items {
        let new = item_bytes(alloc, world, home, &placed.1)?;
        write_bytes(bytes, placed.0, &new);
    }
    Ok(())
}
