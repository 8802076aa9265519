//! Reading the parts of a summary file.

ghost use Rattle.std.specs.Prelude.{◌≢◌, option_map, None, IfErr};
ghost use Rattle.pw_fields.specs.Fields.{items_at, repeated};
ghost use Rattle.pw_fields.specs.FieldFaults.{AnswersField};
ghost use Rattle.pw_files.specs.Rising.{next_key, rising_at};
ghost use Rattle.pw_summary_parts.specs.Reading.{global_at, weight_at, reference_at, some_need_at, need_at, uses_at};

use pw_fields::{FieldFault, read_flag, read_text, read_u8, read_u32, read_u64};
use pw_files::kinds::read_kind;
use pw_files::lists::{read_name_above, read_name_list, read_shape_list};
use pw_items::Items;
use pw_summary::{FIRST, NEED_LIMIT, Uses, WEIGHT_BOUND};
use pw_value::program_names::StartName;
use pw_value::{Kind, Name, Shape};
use std::alloc::Global;

/// A weight.
#[tactic(auto, unfolding(crate::specs::Reading::weight_at))]
fn read_weight(bytes: &[u8]) -> Result<(u64, &[u8]), FieldFault>
    ensures found { AnswersField (λ x. (x.0, x.1.now)) result (weight_at bytes.now) }
    ensures no_memory { IfErr result (λ e. e ≢ FieldFault.NoMemory) }
{
    let (weight, rest) = read_u64(bytes)?;
    if weight < WEIGHT_BOUND {
        Ok((weight, rest))
    } else {
        Err(FieldFault::Fault { left: bytes.len() })
    }
}

/// A global, its name in the table.
#[tactic(auto, unfolding(crate::specs::Reading::global_at))]
fn read_global<'a, 'b>(
    alloc: Global,
    names: &'b [Name],
    before: Option<&Name>,
    bytes: &'a [u8],
) -> Result<((&'b Name, Shape, Option<Kind>, bool), &'a [u8]), FieldFault>
    ensures { AnswersField (λ x. ((x.0.0.now, x.0.1, x.0.2, x.0.3), x.1.now)) result (global_at names.now (option_map (λ n. n.now) before.entry) bytes.now) }
{
    let (name, rest) = read_name_above(names, StartName::Allowed, before, bytes)?;
    let (shape, rest) = read_text(alloc, rest)?;
    let (kind, rest) = read_kind(rest)?;
    let (volatile, rest) = read_flag(rest)?;
    Ok(((name, Shape::new(shape), kind, volatile), rest))
}

/// A global that a function reads or writes, its name in the table.
#[tactic(auto, unfolding(crate::specs::Reading::reference_at))]
fn read_reference<'a, 'b>(
    names: &'b [Name],
    before: Option<&Name>,
    bytes: &'a [u8],
) -> Result<((&'b Name, u64, u64), &'a [u8]), FieldFault>
    ensures found { AnswersField (λ x. ((x.0.0.now, x.0.1, x.0.2), x.1.now)) result (reference_at names.now (option_map (λ n. n.now) before.entry) bytes.now) }
    ensures no_memory { IfErr result (λ e. e ≢ FieldFault.NoMemory) }
{
    let (name, rest) = read_name_above(names, StartName::Allowed, before, bytes)?;
    let (reads, rest) = read_weight(rest)?;
    let (writes, rest) = read_weight(rest)?;
    Ok(((name, reads, writes), rest))
}

/// So many globals.
fn read_global_items<'a>(
    alloc: Global,
    names: &[Name],
    count: u32,
    bytes: &'a [u8],
) -> Result<(Items<(Name, Shape, Option<Kind>, bool)>, &'a [u8]), FieldFault>
    ensures { AnswersField (λ x. (x.0, x.1.now)) result (items_at (global_at names.now) (next_key (λ g. g.0)) count None bytes.now) }
{
    let mut items = Items::new(alloc);
    let mut rest = bytes;
    let mut before: Option<&Name> = None;
    for _ in 0..count {
        let ((name, shape, kind, volatile), after) = read_global(alloc, names, before, rest)?;
        items.push((name.copy(alloc)?, shape, kind, volatile))?;
        before = Some(name);
        rest = after;
    }
    Ok((items, rest))
}

/// So many globals with their weights.
fn read_reference_items<'a>(
    alloc: Global,
    names: &[Name],
    count: u32,
    bytes: &'a [u8],
) -> Result<(Items<(Name, u64, u64)>, &'a [u8]), FieldFault>
    ensures { AnswersField (λ x. (x.0, x.1.now)) result (items_at (reference_at names.now) (next_key (λ r. r.0)) count None bytes.now) }
{
    let mut items = Items::new(alloc);
    let mut rest = bytes;
    let mut before: Option<&Name> = None;
    for _ in 0..count {
        let ((name, reads, writes), after) = read_reference(names, before, rest)?;
        items.push((name.copy(alloc)?, reads, writes))?;
        before = Some(name);
        rest = after;
    }
    Ok((items, rest))
}

/// The count of globals, and the globals, in byte order of their names; and what is left behind them.
#[tactic(auto, unfolding(pw_files::specs::Rising::rising_at))]
pub fn read_global_list<'a>(
    alloc: Global,
    names: &[Name],
    bytes: &'a [u8],
) -> Result<(Items<(Name, Shape, Option<Kind>, bool)>, &'a [u8]), FieldFault>
    ensures { AnswersField (λ x. (x.0, x.1.now)) result (rising_at (λ g. g.0) (global_at names.now) bytes.now) }
{
    let (count, rest) = read_u32(bytes)?;
    read_global_items(alloc, names, count, rest)
}

/// The count of globals, and the globals with their weights.
#[tactic(auto, unfolding(pw_files::specs::Rising::rising_at))]
fn read_reference_list<'a>(
    alloc: Global,
    names: &[Name],
    bytes: &'a [u8],
) -> Result<(Items<(Name, u64, u64)>, &'a [u8]), FieldFault>
    ensures { AnswersField (λ x. (x.0, x.1.now)) result (rising_at (λ r. r.0) (reference_at names.now) bytes.now) }
{
    let (count, rest) = read_u32(bytes)?;
    read_reference_items(alloc, names, count, rest)
}

/// What a function needs, where it may need something.
#[tactic(auto, unfolding(crate::specs::Reading::some_need_at))]
fn read_some_need(bytes: &[u8]) -> Result<(u8, &[u8]), FieldFault>
    ensures found { AnswersField (λ x. (x.0, x.1.now)) result (some_need_at bytes.now) }
    ensures no_memory { IfErr result (λ e. e ≢ FieldFault.NoMemory) }
{
    let (need, rest) = read_u8(bytes)?;
    if need <= NEED_LIMIT {
        Ok((need, rest))
    } else {
        Err(FieldFault::Fault { left: bytes.len() })
    }
}

/// What a function needs, in a version.
fn read_need(version: u32, bytes: &[u8]) -> Result<(u8, &[u8]), FieldFault>
    ensures found { AnswersField (λ x. (x.0, x.1.now)) result (need_at version bytes.now) }
    ensures no_memory { IfErr result (λ e. e ≢ FieldFault.NoMemory) }
{
    if version == FIRST {
        Ok((0, bytes))
    } else {
        read_some_need(bytes)
    }
}

/// What one function uses.
#[tactic(auto, unfolding(crate::specs::Reading::uses_at))]
fn read_uses<'a>(
    alloc: Global,
    version: u32,
    names: &[Name],
    bytes: &'a [u8],
) -> Result<(Uses, &'a [u8]), FieldFault>
    ensures { AnswersField (λ x. (x.0, x.1.now)) result (uses_at version names.now bytes.now) }
{
    let (calls, rest) = read_name_list(alloc, names, StartName::Refused, bytes)?;
    let (shapes, rest) = read_shape_list(alloc, rest)?;
    let (refs, rest) = read_reference_list(alloc, names, rest)?;
    let (need, rest) = read_need(version, rest)?;
    Ok((
        Uses {
            calls,
            shapes,
            refs,
            need,
        },
        rest,
    ))
}

/// What so many functions use, in the form of a version; and what is left behind it.
pub fn read_all_uses<'a>(
    alloc: Global,
    version: u32,
    names: &[Name],
    count: usize,
    bytes: &'a [u8],
) -> Result<(Items<Uses>, &'a [u8]), FieldFault>
    ensures { AnswersField (λ x. (x.0, x.1.now)) result (repeated (uses_at version names.now) count bytes.now) }
{
    let mut all = Items::new(alloc);
    let mut rest = bytes;
    for _ in 0..count {
        let (uses, after) = read_uses(alloc, version, names, rest)?;
        all.push(uses)?;
        rest = after;
    }
    Ok((all, rest))
}
