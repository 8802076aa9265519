//! Names, shapes and names with shapes that stand in byte order without repeats.

ghost use Rattle.std.specs.Prelude.{◌≡◌, ◌≢◌, option_map, None, IfErr};
ghost use Rattle.pw_fields.specs.Fields.{items_at};
ghost use Rattle.pw_fields.specs.FieldFaults.{AnswersField};
ghost use Rattle.pw_files.specs.Rising.{is_above, next_key, rising_at};
ghost use Rattle.pw_files.specs.Names.{name_above_at, text_above_at, shaped_at, name_list_at, text_list_at, shaped_list_at};

use pw_fields::names::read_name;
use pw_fields::{FieldFault, read_text, read_text_in_place, read_u32};
use pw_items::Items;
use pw_value::program_names::{StartName, is_allowed};
use pw_value::{Name, Shape};
use std::alloc::Global;

/// Whether a name is above the one before it.
fn is_name_above(before: Option<&Name>, name: &Name) -> bool
    ensures { result ≡ is_above (option_map (λ n. n.now) before.entry) name.now }
{
    match before {
        None => true,
        Some(before) => before.as_bytes().cmp(name.as_bytes()).is_lt(),
    }
}

/// A name of the table above the one before it, which is `$start` only where that may stand.
#[tactic(auto, unfolding(crate::specs::Names::name_above_at))]
pub fn read_name_above<'a, 'b>(
    names: &'b [Name],
    start: StartName,
    before: Option<&Name>,
    bytes: &'a [u8],
) -> Result<(&'b Name, &'a [u8]), FieldFault>
    ensures found { AnswersField (λ x. (x.0.now, x.1.now)) result (name_above_at names.now start (option_map (λ n. n.now) before.entry) bytes.now) }
    ensures no_memory { IfErr result (λ e. e ≢ FieldFault.NoMemory) }
{
    let (name, rest) = read_name(names, bytes)?;
    if is_name_above(before, name) && is_allowed(start, name) {
        Ok((name, rest))
    } else {
        Err(FieldFault::Fault { left: bytes.len() })
    }
}

/// Whether a text is above the one before it.
fn is_text_above(before: Option<&[u8]>, text: &[u8]) -> bool
    ensures { result ≡ is_above (option_map (λ t. t.now) before.entry) text.now }
{
    match before {
        None => true,
        Some(before) => before.cmp(text).is_lt(),
    }
}

/// A text above the one before it, in place.
#[tactic(auto, unfolding(crate::specs::Names::text_above_at))]
pub fn read_text_above<'a>(
    before: Option<&[u8]>,
    bytes: &'a [u8],
) -> Result<(&'a [u8], &'a [u8]), FieldFault>
    ensures found { AnswersField (λ x. (x.0.now, x.1.now)) result (text_above_at (option_map (λ t. t.now) before.entry) bytes.now) }
    ensures no_memory { IfErr result (λ e. e ≢ FieldFault.NoMemory) }
{
    let (text, rest) = read_text_in_place(bytes)?;
    if is_text_above(before, text) {
        Ok((text, rest))
    } else {
        Err(FieldFault::Fault { left: bytes.len() })
    }
}

/// A name of the table, with its shape.
#[tactic(auto, unfolding(crate::specs::Names::shaped_at))]
pub fn read_shaped<'a, 'b>(
    alloc: Global,
    names: &'b [Name],
    start: StartName,
    before: Option<&Name>,
    bytes: &'a [u8],
) -> Result<((&'b Name, Shape), &'a [u8]), FieldFault>
    ensures { AnswersField (λ x. ((x.0.0.now, x.0.1), x.1.now)) result (shaped_at names.now start (option_map (λ n. n.now) before.entry) bytes.now) }
{
    let (name, rest) = read_name_above(names, start, before, bytes)?;
    let (shape, rest) = read_text(alloc, rest)?;
    Ok(((name, Shape::new(shape)), rest))
}

/// So many names.
fn read_name_items<'a>(
    alloc: Global,
    names: &[Name],
    start: StartName,
    count: u32,
    bytes: &'a [u8],
) -> Result<(Items<Name>, &'a [u8]), FieldFault>
    ensures { AnswersField (λ x. (x.0, x.1.now)) result (items_at (name_above_at names.now start) (next_key (λ name. name)) count None bytes.now) }
{
    let mut items = Items::new(alloc);
    let mut rest = bytes;
    let mut before: Option<&Name> = None;
    for _ in 0..count {
        let (name, after) = read_name_above(names, start, before, rest)?;
        items.push(name.copy(alloc)?)?;
        before = Some(name);
        rest = after;
    }
    Ok((items, rest))
}

/// So many names with their shapes.
fn read_shaped_items<'a>(
    alloc: Global,
    names: &[Name],
    start: StartName,
    count: u32,
    bytes: &'a [u8],
) -> Result<(Items<(Name, Shape)>, &'a [u8]), FieldFault>
    ensures { AnswersField (λ x. (x.0, x.1.now)) result (items_at (shaped_at names.now start) (next_key (λ f. f.0)) count None bytes.now) }
{
    let mut items = Items::new(alloc);
    let mut rest = bytes;
    let mut before: Option<&Name> = None;
    for _ in 0..count {
        let ((name, shape), after) = read_shaped(alloc, names, start, before, rest)?;
        items.push((name.copy(alloc)?, shape))?;
        before = Some(name);
        rest = after;
    }
    Ok((items, rest))
}

/// So many shapes.
fn read_shape_items(
    alloc: Global,
    count: u32,
    bytes: &[u8],
) -> Result<(Items<Shape>, &[u8]), FieldFault>
    ensures { AnswersField (λ x. (x.0, x.1.now)) result (items_at text_above_at (next_key (λ text. text)) count None bytes.now) }
{
    let mut items = Items::new(alloc);
    let mut rest = bytes;
    let mut before: Option<&[u8]> = None;
    for _ in 0..count {
        let (text, after) = read_text_above(before, rest)?;
        items.push(Shape::new(Vec::from_slice(alloc, text)?))?;
        before = Some(text);
        rest = after;
    }
    Ok((items, rest))
}

/// Reads a list of names in byte order without repeats: their count, and the place of each in the table.
#[tactic(auto, unfolding(crate::specs::Rising::rising_at))]
pub fn read_name_list<'a>(
    alloc: Global,
    names: &[Name],
    start: StartName,
    bytes: &'a [u8],
) -> Result<(Items<Name>, &'a [u8]), FieldFault>
    ensures { AnswersField (λ x. (x.0, x.1.now)) result (name_list_at names.now start bytes.now) }
{
    let (count, rest) = read_u32(bytes)?;
    read_name_items(alloc, names, start, count, rest)
}

/// Reads a list of names with their shapes, in byte order of the names without repeats: their count, and each.
#[tactic(auto, unfolding(crate::specs::Rising::rising_at))]
pub fn read_shaped_list<'a>(
    alloc: Global,
    names: &[Name],
    start: StartName,
    bytes: &'a [u8],
) -> Result<(Items<(Name, Shape)>, &'a [u8]), FieldFault>
    ensures { AnswersField (λ x. (x.0, x.1.now)) result (shaped_list_at names.now start bytes.now) }
{
    let (count, rest) = read_u32(bytes)?;
    read_shaped_items(alloc, names, start, count, rest)
}

/// Reads a list of shapes in byte order without repeats: their count, and each as a text.
#[tactic(auto, unfolding(crate::specs::Rising::rising_at))]
pub fn read_shape_list(alloc: Global, bytes: &[u8]) -> Result<(Items<Shape>, &[u8]), FieldFault>
    ensures { AnswersField (λ x. (x.0, x.1.now)) result (text_list_at bytes.now) }
{
    let (count, rest) = read_u32(bytes)?;
    read_shape_items(alloc, count, rest)
}
