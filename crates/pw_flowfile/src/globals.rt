//! Reading the global objects and the declared names of a flow file.

ghost use Rattle.std.specs.Prelude.{◌≡◌, ◌+◌, ◌∷◌, ◌≤◌, ℕ, List, [], length, map, IfOk, IfErr, ◌≢◌};
ghost use Rattle.pw_fields.specs.Fields.{checked, items_at};
ghost use Rattle.pw_fields.specs.FieldFaults.{AnswersField};
ghost use Rattle.pw_fields.specs.FieldNames.{IsRisingFrom};
ghost use Rattle.pw_files.specs.Kinds.{kind_at};
ghost use Rattle.pw_flow_ops.specs.Reading.{one_of_at};
ghost use Rattle.pw_flowfile.specs.FlowFile.{item_forms};
ghost use Rattle.pw_flowfile.specs.Reading.{has_room, content_at, item_at, placed_item_at, next_free, has_kind_size, global_body_at, global_at, next_global, declared_body_at, declared_at, next_declared, seen_after};
ghost use Rattle.pw_flowfile.specs.Marks.{Marks};

use crate::met::read_fresh;
use pw_fields::{FieldFault, read_flag, read_text, read_u32};
use pw_files::kinds::read_kind;
use pw_files::places::{read_item_bytes, read_offset};
use pw_flow::{FlowGlobal, Item, kind_size};
use pw_flow_ops::{read_named, read_one_of};
use pw_items::Items;
use pw_value::program_names::StartName;
use pw_value::{Kind, Name, Shape};
use std::alloc::Global;

/// Which item follows.
#[derive(Clone, Copy)]
pub enum ItemForm {
    Bytes,
    Address,
}

const ITEM_FORMS: [ItemForm; 2] = [ItemForm::Bytes, ItemForm::Address];

/// What stands behind an item's form.
#[tactic(auto, unfolding(crate::specs::Reading::content_at))]
fn read_content<'a>(
    alloc: Global,
    start: StartName,
    names: &[Name],
    place: (u32, u32),
    form: ItemForm,
    bytes: &'a [u8],
) -> Result<(Item, &'a [u8]), FieldFault>
    ensures { AnswersField (λ x. (x.0, x.1.now)) result (content_at start names.now place.0 place.1 form bytes.now) }
{
    match form {
        ItemForm::Bytes => {
            let (text, rest) = read_item_bytes(place.0, place.1, bytes)?;
            Ok((Item::Bytes(Items::from_slice(alloc, text)?), rest))
        }
        ItemForm::Address => {
            let (name, rest) = read_named(start, names, bytes)?;
            let (offset, rest) = read_u32(rest)?;
            Ok((Item::Address(name.copy(alloc)?, offset), rest))
        }
    }
}

/// The form of an item, for which there is room.
fn read_form(size: u32, offset: u32, bytes: &[u8]) -> Result<(ItemForm, &[u8]), FieldFault>
    ensures found { AnswersField (λ x. (x.0, x.1.now)) result (checked (λ f. has_room f size offset) (one_of_at item_forms) bytes.now) }
    ensures no_memory { IfErr result (λ e. e ≢ FieldFault.NoMemory) }
{
    let (form, rest) = read_one_of(&ITEM_FORMS, bytes)?;
    match form {
        ItemForm::Address if u64::from(offset) + 4 > u64::from(size) => {
            Err(FieldFault::Fault { left: bytes.len() })
        }
        _ => Ok((form, rest)),
    }
}

/// An item at an offset of an object of so many bytes.
#[tactic(auto, unfolding(crate::specs::Reading::item_at))]
fn read_item<'a>(
    alloc: Global,
    start: StartName,
    names: &[Name],
    place: (u32, u32),
    bytes: &'a [u8],
) -> Result<(Item, &'a [u8]), FieldFault>
    ensures { AnswersField (λ x. (x.0, x.1.now)) result (item_at start names.now place.0 place.1 bytes.now) }
{
    let (form, rest) = read_form(place.0, place.1, bytes)?;
    read_content(alloc, start, names, place, form, rest)
}

/// An item and its offset, which is at least `free`.
#[tactic(auto, unfolding(crate::specs::Reading::placed_item_at))]
fn read_placed_item<'a>(
    alloc: Global,
    start: StartName,
    names: &[Name],
    size: u32,
    free: u64,
    bytes: &'a [u8],
) -> Result<((u32, Item), &'a [u8]), FieldFault>
    ensures { AnswersField (λ x. (x.0, x.1.now)) result (placed_item_at start names.now size free bytes.now) }
{
    let (offset, rest) = read_offset(size, free, bytes)?;
    let (item, rest) = read_item(alloc, start, names, (size, offset), rest)?;
    Ok(((offset, item), rest))
}

/// The least offset of an item behind this one.
fn free_behind(placed: &(u32, Item), free: u64) -> u64
    ensures { result ≡ next_free free placed.now }
{
    let len = match &placed.1 {
        Item::Bytes(bytes) => bytes.as_slice().len() as u64,
        Item::Address(_, _) => 4,
    };
    u64::from(placed.0) + len.max(1)
}

/// So many items of an object.
fn read_items<'a>(
    alloc: Global,
    start: StartName,
    names: &[Name],
    size: u32,
    count: u32,
    bytes: &'a [u8],
) -> Result<(Items<(u32, Item)>, &'a [u8]), FieldFault>
    ensures { AnswersField (λ x. (x.0, x.1.now)) result (items_at (placed_item_at start names.now size) next_free count 0 bytes.now) }
{
    let mut items = Items::new(alloc);
    let mut rest = bytes;
    let mut free = 0u64;
    for _ in 0..count {
        let (item, after) = read_placed_item(alloc, start, names, size, free, rest)?;
        free = free_behind(&item, free);
        items.push(item)?;
        rest = after;
    }
    Ok((items, rest))
}

/// The kind of an object of so many bytes.
fn read_sized_kind(size: u32, bytes: &[u8]) -> Result<(Option<Kind>, &[u8]), FieldFault>
    ensures found { AnswersField (λ x. (x.0, x.1.now)) result (checked (has_kind_size size) kind_at bytes.now) }
    ensures no_memory { IfErr result (λ e. e ≢ FieldFault.NoMemory) }
{
    let (kind, rest) = read_kind(bytes)?;
    match kind {
        Some(scalar) if kind_size(scalar) != size => {
            Err(FieldFault::Fault { left: bytes.len() })
        }
        _ => Ok((kind, rest)),
    }
}

/// What stands behind an object's name. Whether an item may name `$start` is told.
#[tactic(auto, unfolding(crate::specs::Reading::global_body_at))]
pub fn read_global_body<'a>(
    alloc: Global,
    start: StartName,
    names: &[Name],
    name: &Name,
    bytes: &'a [u8],
) -> Result<(FlowGlobal, &'a [u8]), FieldFault>
    ensures found { AnswersField (λ x. (x.0, x.1.now)) result (global_body_at start names.now name.now bytes.now) }
    ensures named { IfOk result (λ x. x.0.name ≡ name.now) }
{
    let (size, rest) = read_u32(bytes)?;
    let (shape, rest) = read_text(alloc, rest)?;
    let (kind, rest) = read_sized_kind(size, rest)?;
    let (volatile, rest) = read_flag(rest)?;
    let (count, rest) = read_u32(rest)?;
    let (items, rest) = read_items(alloc, start, names, size, count, rest)?;
    let global = FlowGlobal {
        name: name.copy(alloc)?,
        size,
        shape: Shape::new(shape),
        kind,
        volatile,
        items,
    };
    Ok((global, rest))
}

/// An object whose name was not met before.
fn read_global<'a>(
    alloc: Global,
    names: &[Name],
    met: &mut [bool],
    bytes: &'a [u8],
) -> Result<(FlowGlobal, &'a [u8]), FieldFault>
    requires { length met.old ≡ length names.now }
    ensures found { (seen : List (List ℕ)) → Marks names.now seen met.old → AnswersField (λ x. (x.0, x.1.now)) result (global_at names.now seen bytes.now) }
    ensures marked { IfOk result (λ x. (seen : List (List ℕ)) → IsRisingFrom [] names.now → Marks names.now seen met.old → Marks names.now (x.0.name ∷ seen) met.new) }
{
    let (name, rest) = read_fresh(names, met, bytes)?;
    read_global_body(alloc, StartName::Refused, names, name, rest)
}

/// So many objects.
pub fn read_globals<'a>(
    alloc: Global,
    names: &[Name],
    met: &mut [bool],
    count: u32,
    bytes: &'a [u8],
) -> Result<(Items<FlowGlobal>, &'a [u8]), FieldFault>
    requires count { length met.old ≡ length names.now }
    requires rising { IsRisingFrom [] names.now }
    ensures found { (seen : List (List ℕ)) → Marks names.now seen met.old → AnswersField (λ x. (x.0, x.1.now)) result (items_at (global_at names.now) next_global count seen bytes.now) }
    ensures marked { IfOk result (λ x. (seen : List (List ℕ)) → Marks names.now seen met.old → Marks names.now (seen_after seen (map (λ g. g.name) x.0)) met.new) }
{
    let mut globals = Items::new(alloc);
    let mut rest = bytes;
    for _ in 0..count {
        let (global, after) = read_global(alloc, names, met, rest)?;
        globals.push(global)?;
        rest = after;
    }
    Ok((globals, rest))
}

/// The shape of a declared name, behind it.
#[tactic(auto, unfolding(crate::specs::Reading::declared_body_at))]
fn read_declared_shape<'a>(
    alloc: Global,
    name: &Name,
    bytes: &'a [u8],
) -> Result<((Name, Shape), &'a [u8]), FieldFault>
    ensures found { AnswersField (λ x. (x.0, x.1.now)) result (declared_body_at name.now bytes.now) }
    ensures named { IfOk result (λ x. x.0.0 ≡ name.now) }
{
    let (shape, rest) = read_text(alloc, bytes)?;
    Ok(((name.copy(alloc)?, Shape::new(shape)), rest))
}

/// A declared name that was not met before, and its shape.
fn read_declaration<'a>(
    alloc: Global,
    names: &[Name],
    met: &mut [bool],
    bytes: &'a [u8],
) -> Result<((Name, Shape), &'a [u8]), FieldFault>
    requires { length met.old ≡ length names.now }
    ensures found { (seen : List (List ℕ)) → Marks names.now seen met.old → AnswersField (λ x. (x.0, x.1.now)) result (declared_at names.now seen bytes.now) }
    ensures marked { IfOk result (λ x. (seen : List (List ℕ)) → IsRisingFrom [] names.now → Marks names.now seen met.old → Marks names.now (x.0.0 ∷ seen) met.new) }
{
    let (name, rest) = read_fresh(names, met, bytes)?;
    read_declared_shape(alloc, name, rest)
}

/// So many declared names.
pub fn read_declared<'a>(
    alloc: Global,
    names: &[Name],
    met: &mut [bool],
    count: u32,
    bytes: &'a [u8],
) -> Result<(Items<(Name, Shape)>, &'a [u8]), FieldFault>
    requires count { length met.old ≡ length names.now }
    requires rising { IsRisingFrom [] names.now }
    ensures { (seen : List (List ℕ)) → Marks names.now seen met.old → AnswersField (λ x. (x.0, x.1.now)) result (items_at (declared_at names.now) next_declared count seen bytes.now) }
{
    let mut declared = Items::new(alloc);
    let mut rest = bytes;
    for _ in 0..count {
        let (declaration, after) = read_declaration(alloc, names, met, rest)?;
        declared.push(declaration)?;
        rest = after;
    }
    Ok((declared, rest))
}
