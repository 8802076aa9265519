//! Constants as they stand in an object (C90 6.4).

ghost use Rattle.std.specs.Prelude.{◌≡◌, option_map, IfOk};
ghost use Rattle.pw_check_init_parts.specs.Items.{pointer_item};
ghost use Rattle.pw_check_rules.specs.Initialisers as spec;
ghost use Rattle.pw_check_constants.specs.Views.{view_place};
ghost use Rattle.pw_typed.specs.Views.{view_expr, view_item};
ghost use Rattle.pw_types.specs.Views.{view_type};

use pw_check_constants::{Base, Place, address_of, constant_value, is_null_pointer};
use pw_typed::{Symbol, TExpr, TItem};
use pw_types::{CType, Types};
use pw_value::words::word_of_u64;
use std::alloc::{AllocError, Global};

/// A word in its bytes, the highest first, of which there are so many.
fn word_bytes(alloc: Global, size: u8, word: u32) -> Result<Vec<u8>, AllocError>
    ensures { IfOk result (λ bytes. bytes.items ≡ spec.word_bytes size word) }
{
    let mut bytes = Vec::new(alloc);
    let mut rest = word;
    for _place in 0..size {
        bytes.push((rest % 256) as u8)?;
        rest /= 256;
    }
    bytes.reverse();
    Ok(bytes)
}

/// An address as it stands in an object. A distance that 32 bits cannot count answers want of memory.
fn address_item(alloc: Global, place: &Place<'_>) -> Result<TItem, AllocError>
    ensures { IfOk result (λ item. view_item item ≡ spec.address_item (view_place place.now)) }
{
    let offset = word_of_u64(place.offset)?;
    let symbol = match place.base {
        Base::Named(symbol) => symbol.copy(alloc)?,
        Base::Text(number) => Symbol::Hidden(number),
    };
    Ok(TItem::Address(symbol, offset))
}

/// A constant of a pointer's type, as it stands in an object.
fn pointer_item(alloc: Global, types: &Types, e: &TExpr) -> Result<Option<TItem>, AllocError>
    ensures { IfOk result (λ item. option_map view_item item ≡ pointer_item types.now (view_expr e.now)) }
{
    if is_null_pointer(alloc, e)? {
        return Ok(Some(TItem::Bytes(word_bytes(alloc, 4, 0)?)));
    }
    match address_of(alloc, types, e)? {
        Some(place) => Ok(Some(address_item(alloc, &place)?)),
        None => Ok(None),
    }
}

/// A constant of a scalar's type, as it stands in an object.
#[tactic(auto, unfolding(pw_types::specs::Views::view_type), using(pw_types::proofs::ViewLemmas::signature_view))]
pub fn item_of(
    alloc: Global,
    types: &Types,
    ty: &CType,
    e: &TExpr,
) -> Result<Option<TItem>, AllocError>
    ensures { IfOk result (λ item. option_map view_item item ≡ spec.item_of types.now (view_type ty.now) (view_expr e.now)) }
{
    match ty {
        CType::Int(kind) => match constant_value(alloc, e)? {
            Some(word) => Ok(Some(TItem::Bytes(word_bytes(alloc, kind.size(), word)?))),
            None => Ok(None),
        },
        CType::Pointer(_) => pointer_item(alloc, types, e),
        CType::Void | CType::Array(_, _) | CType::Function(_) | CType::Record(_) => Ok(None),
    }
}
