//! The table of names of a file, and names that stand in a file by their index in it.

ghost use Rattle.std.specs.Prelude.{◌≡◌, ◌≢◌, ◌+◌, ◌++◌, ◌<◌, ◌≤◌, ◌^◌, List, length, [], IfOk, IfErr, OnOk, Contains};
ghost use Rattle.std.specs.Prelude.{ℕ, map, IfSome, IfNone, IsTrue, slice_index_or};
ghost use Rattle.std.specs.List.{flat_map};
ghost use Rattle.pw_value.specs.Names.{IsNameLength};
ghost use Rattle.pw_fields.specs.Fields.{items_at, text};
ghost use Rattle.pw_fields.specs.FieldFaults.{AnswersField};
ghost use Rattle.pw_fields.specs.FieldNames.{is_entry, entry_at, next_entry, names_at, name_at, name_index, place_of, IsRisingFrom, IsNameTable, IsTableOf, name_table, unrepeated, first_unused};

use crate::writing::{push_text, push_u32};
use crate::{FieldFault, read_text_in_place, read_u32};
use pw_value::Name;
use pw_value::limits::NAME_LIMIT;
use std::alloc::{AllocError, Global};

/// Whether a text may follow another in the table: as long as a name may be, and above it in byte order.
fn may_follow(before: &[u8], name: &[u8]) -> bool
    ensures entry { result ≡ is_entry before.now name.now }
    ensures named { IsTrue result → IsNameLength (length name.now) }
{
    name.len() >= 1 && name.len() <= NAME_LIMIT && before.cmp(name).is_lt()
}

/// A name of the table behind the one before it, in place.
#[tactic(auto, unfolding(crate::specs::FieldNames::entry_at))]
fn read_entry<'a>(before: &[u8], bytes: &'a [u8]) -> Result<(&'a [u8], &'a [u8]), FieldFault>
    ensures read { AnswersField (λ x. (x.0.now, x.1.now)) result (entry_at before.now bytes.now) }
    ensures named { IfOk result (λ x. IsNameLength (length x.0.now)) }
    ensures no_memory { IfErr result (λ e. e ≢ FieldFault.NoMemory) }
{
    let (name, rest) = read_text_in_place(bytes)?;
    if may_follow(before, name) {
        Ok((name, rest))
    } else {
        Err(FieldFault::Fault { left: bytes.len() })
    }
}

/// So many names of the table.
fn read_entries(alloc: Global, count: u32, bytes: &[u8]) -> Result<(Vec<Name>, &[u8]), FieldFault>
    ensures { AnswersField (λ x. (x.0.items, x.1.now)) result (items_at entry_at next_entry count [] bytes.now) }
{
    let mut names = Vec::new(alloc);
    let mut rest = bytes;
    let mut before: &[u8] = &[];
    for _ in 0..count {
        let (text, after) = read_entry(before, rest)?;
        names.push(Name::within(alloc, text)?)?;
        before = text;
        rest = after;
    }
    Ok((names, rest))
}

/// The count of the names, and the names.
#[tactic(auto, unfolding(crate::specs::FieldNames::names_at))]
fn read_counted(alloc: Global, bytes: &[u8]) -> Result<(Vec<Name>, &[u8]), FieldFault>
    ensures { AnswersField (λ x. (x.0.items, x.1.now)) result (names_at bytes.now) }
{
    let (count, rest) = read_u32(bytes)?;
    read_entries(alloc, count, rest)
}

/// The table of names: their count, and the names in rising order, each as long as a name may be.
pub fn read_names(alloc: Global, bytes: &[u8]) -> Result<(Vec<Name>, &[u8]), FieldFault>
    ensures found { AnswersField (λ x. (x.0.items, x.1.now)) result (names_at bytes.now) }
    // The table takes its bytes from the beginning.
    ensures within { IfOk result (λ x. length (flat_map text x.0.items) + length x.1.now ≤ length bytes.now) }
{
    read_counted(alloc, bytes)
}

/// A name of the table, by its index.
#[tactic(auto, unfolding(crate::specs::FieldNames::name_at))]
pub fn read_name<'a, 'b>(
    names: &'b [Name],
    bytes: &'a [u8],
) -> Result<(&'b Name, &'a [u8]), FieldFault>
    ensures found { AnswersField (λ x. (x.0.now, x.1.now)) result (name_at names.now bytes.now) }
    ensures no_memory { IfErr result (λ e. e ≢ FieldFault.NoMemory) }
{
    let (index, rest) = read_u32(bytes)?;
    match names.get(index as usize) {
        Some(name) => Ok((name, rest)),
        None => Err(FieldFault::Fault { left: bytes.len() }),
    }
}

/// The place of a name in rising names, by halves.
pub fn find_name(names: &[Name], name: &Name) -> Option<usize>
    requires { IsRisingFrom [] names.now }
    ensures found { IfSome result (λ i. (i < length names.now) × (place_of names.now name.now ≡ i)) }
    ensures none { IfNone result (¬ Contains names.now name.now) }
{
    match names.binary_search(name) {
        Ok(place) => Some(place),
        Err(_) => None,
    }
}

/// A name of the table, by its index.
pub fn push_name(out: &mut Vec<u8>, names: &[Name], name: &Name) -> Result<(), AllocError>
    requires table { IsNameTable names.now }
    requires stands { Contains names.now name.now }
    ensures { OnOk result (out.new.items ≡ out.old.items ++ name_index names.now name.now) }
{
    match find_name(names, name) {
        Some(place) => push_u32(out, place as u32),
        None => unreachable!(),
    }
}

/// Adds the table of names: their count, and each as a text.
#[tactic(auto, unfolding(crate::specs::FieldNames::name_table))]
pub fn push_names(out: &mut Vec<u8>, names: &[Name]) -> Result<(), AllocError>
    requires { IsNameTable names.now }
    ensures { OnOk result (out.new.items ≡ out.old.items ++ name_table names.now) }
{
    push_u32(out, names.len() as u32)?;
    push_entries(out, names)
}

/// The names of the table, one after the other.
fn push_entries(out: &mut Vec<u8>, names: &[Name]) -> Result<(), AllocError>
    ensures { OnOk result (out.new.items ≡ out.old.items ++ flat_map text names.now) }
{
    for name in names {
        push_text(out, name.as_bytes())?;
    }
    Ok(())
}

/// Sorted names without what stands right behind its like.
fn distinct(alloc: Global, sorted: &[&Name]) -> Result<Vec<Name>, AllocError>
    ensures made { IfOk result (λ v. v.items ≡ unrepeated [] (map (λ name. name.now) sorted.now)) }
    ensures lengths { OnOk result ((k : ℕ) → k < length sorted.now → (d : List ℕ) → IsNameLength (length (slice_index_or (map (λ name. name.now) sorted.now) k d))) }
{
    let mut names = Vec::new(alloc);
    let mut before: &[u8] = &[];
    for name in sorted {
        let bytes = name.as_bytes();
        if before != bytes {
            names.push(name.copy(alloc)?)?;
            before = bytes;
        }
    }
    Ok(names)
}

/// The table of the names that are used, in whatever order and however often.
pub fn table_of(alloc: Global, mut used: Vec<&Name>) -> Result<Vec<Name>, AllocError>
    ensures { IfOk result (λ v. IsTableOf v.items (map (λ name. name.now) used.entry.items)) }
{
    used.sort_unstable();
    distinct(alloc, &used)
}

/// How many bytes are left from the first name on that is not in the other table, where `behind` are left
/// behind the names.
fn first_outside(names: &[Name], wanted: &[Name], behind: usize) -> Option<usize>
    requires rising { IsRisingFrom [] wanted.now }
    requires room { length (flat_map text names.now) + behind < 2 ^ 64 }
    ensures { result ≡ first_unused names.now wanted.now behind }
{
    let mut found = None;
    let mut left = behind;
    let mut i = names.len();
    while i > 0 {
        i -= 1;
        let name = &names[i];
        left += 4 + name.as_bytes().len();
        if find_name(wanted, name).is_none() {
            found = Some(left);
        }
    }
    found
}

/// The rule that each name of the table is used: where the first name that is not begins, told by the
/// bytes that are left from there on. `used` are the names that are used, in whatever order and however
/// often, and `behind` bytes are left behind the table.
pub fn find_unused(
    alloc: Global,
    names: &[Name],
    used: Vec<&Name>,
    behind: usize,
) -> Result<Option<usize>, AllocError>
    requires { length (flat_map text names.now) + behind < 2 ^ 64 }
    ensures { IfOk result (λ place. place ≡ first_unused names.now (map (λ name. name.now) used.entry.items) behind) }
{
    let wanted = table_of(alloc, used)?;
    Ok(first_outside(names, &wanted, behind))
}
