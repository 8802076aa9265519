//! Writing scalars, and copying structures and unions.

ghost use Rattle.std.specs.Prelude.{◌≡◌, IfOk};
ghost use Rattle.pw_cmean.specs.Undefined.{least};
ghost use Rattle.pw_cmean.specs.Access as meaning;
ghost use Rattle.pw_interp_state.specs.Answers.{Changes, lesser_found};
ghost use Rattle.pw_interp_state.specs.Categories.{view_purpose};
ghost use Rattle.pw_interp_state.specs.Accesses as spec;

use crate::access::access;
use crate::bytes::{copied_from, encoded, word_bytes};
use crate::category::{Category, Purpose};
use crate::fault::{Fault, judge};
use crate::findings::when;
use crate::objects::Objects;
use pw_cmean::Undef;
use pw_types::Layout;
use pw_value::{Byte, Pointer, Value};
use std::alloc::{AllocError, Global};

/// Whether a place is in an object that may not be written.
fn is_read_only(objects: &Objects, place: Value) -> bool
    ensures { result ≡ meaning.is_read_only objects.now place }
{
    match place {
        Value::At(Pointer::Object(number, _)) => !objects.is_writable(number),
        _ => false,
    }
}

/// What a write of so many bytes is where it has no meaning.
fn writing(
    purpose: Purpose,
    objects: &Objects,
    width: u32,
    align: u32,
    place: Value,
) -> Option<Undef>
    ensures { result ≡ least (meaning.writing (view_purpose purpose) objects.now width align place) }
{
    let found = access(objects, width, align, place);
    match purpose {
        Purpose::Assigning => when(Undef::ReadOnlyObject, is_read_only(objects, place), found),
        Purpose::Initialising => found,
    }
}

/// Puts bytes at a place.
fn write_at(objects: &mut Objects, bytes: &[Byte], place: Value) -> Result<(), Fault>
    ensures { Changes objects.old (spec.written_at objects.old bytes.now place) result objects.new }
{
    match place {
        Value::At(Pointer::Object(number, offset)) => {
            objects.write(number, offset, bytes);
            Ok(())
        }
        _ => Err(Fault::Wrong),
    }
}

/// Puts a value into a scalar of the category at a place.
pub fn store(
    objects: &mut Objects,
    purpose: Purpose,
    category: Category,
    place: Value,
    value: Value,
) -> Result<(), Fault>
    ensures { Changes objects.old (spec.stored (view_purpose purpose) objects.old category place value) result objects.new }
{
    let width = category.width();
    judge(writing(purpose, objects, u32::from(width), u32::from(width), place))?;
    match (value, width) {
        (Value::Num(n), 4) => write_at(objects, &word_bytes(n), place),
        _ => {
            let (bytes, count) = encoded(value, width);
            write_at(objects, &bytes[..count], place)
        }
    }
}

/// Whether two ranges of so many bytes share a byte and are not the same.
fn overlap(size: u32, target: Value, source: Value) -> bool
    ensures { result ≡ meaning.overlap size target source }
{
    match (target, source) {
        (Value::At(Pointer::Object(a, i)), Value::At(Pointer::Object(b, j))) => {
            a == b
                && i != j
                && u64::from(i) < u64::from(j) + u64::from(size)
                && u64::from(j) < u64::from(i) + u64::from(size)
        }
        _ => false,
    }
}

/// What a copy is where it has no meaning.
#[tactic(auto, using(crate::proofs::FindingLemmas::least_both))]
fn copying(
    purpose: Purpose,
    objects: &Objects,
    layout: Layout,
    target: Value,
    source: Value,
) -> Option<Undef>
    ensures { result ≡ least (spec.copying (view_purpose purpose) objects.now layout target source) }
{
    let written = writing(purpose, objects, layout.size, layout.align, target);
    let read = access(objects, layout.size, layout.align, source);
    let found = lesser(read, written);
    when(
        Undef::OverlappingCopy,
        overlap(layout.size, target, source),
        found,
    )
}

/// Of what was found in two lists the one with the least number.
fn lesser(first: Option<Undef>, second: Option<Undef>) -> Option<Undef>
    ensures { result ≡ lesser_found first second }
{
    match first {
        Some(operation) => when(operation, true, second),
        None => second,
    }
}

/// Copies a structure or union from one place to another (ISO C90 6.3.16.1).
pub fn copy(
    alloc: Global,
    objects: &mut Objects,
    purpose: Purpose,
    layout: Layout,
    target: Value,
    source: Value,
) -> Result<Result<(), Fault>, AllocError>
    ensures { IfOk result (λ r. Changes objects.old (spec.copied (view_purpose purpose) objects.old layout target source) r objects.new) }
{
    if let Err(fault) = judge(copying(purpose, objects, layout, target, source)) {
        return Ok(Err(fault));
    }
    let Value::At(Pointer::Object(number, offset)) = source else {
        return Ok(Err(Fault::Wrong));
    };
    let bytes = copied_from(alloc, objects.bytes(number), offset, layout.size)?;
    Ok(write_at(objects, &bytes, target))
}

/// Puts a value into an object of a type of the category: a scalar, or the structure or union at a place, which
/// has the layout (ISO C90 6.3.16.1, 6.5.7).
pub fn put(
    alloc: Global,
    objects: &mut Objects,
    purpose: Purpose,
    category: Category,
    layout: Option<Layout>,
    place: Value,
    value: Value,
) -> Result<Result<(), Fault>, AllocError>
    ensures { IfOk result (λ r. Changes objects.old (spec.value_put (view_purpose purpose) objects.old category layout place value) r objects.new) }
{
    match (category, layout) {
        (Category::Int(_) | Category::Pointer, _) => {
            Ok(store(objects, purpose, category, place, value))
        }
        (Category::Record, Some(layout)) => copy(alloc, objects, purpose, layout, place, value),
        _ => Ok(Err(Fault::Wrong)),
    }
}
