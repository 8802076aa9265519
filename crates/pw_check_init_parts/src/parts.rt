//! The parts of an object, as its initialisers come to them.

ghost use Rattle.std.specs.Prelude.{◌≡◌, ◌+◌, ◌*◌, ◌^◌, ◌≤◌, is_some, nat_lt, option_map, slice_get, true, zip, IfOk, MatchResult};
ghost use Rattle.std.specs.Option.{option_copied, option_map_or};
ghost use Rattle.pw_check_init_parts.specs.Members.{member_in, own_part, view_found};
ghost use Rattle.pw_check_init_parts.specs.PlaceViews.{view_frame, view_target};
ghost use Rattle.pw_check_rules.specs.Initialisers as spec;
ghost use Rattle.pw_types.specs.Views.{view_members, view_qtype};

use pw_check_constants::told_size;
use pw_check_types::{copy_qtype, copy_type, plain};
use pw_types::{CType, Content, Member, QType, RecordKind, Types};
use std::alloc::{AllocError, Global};

/// An object with its offset in bytes, and the number of its part that comes next.
#[derive(Drop)]
pub struct Frame {
    pub ty: CType,
    pub offset: u64,
    pub next: u64,
}

/// A part of an object, and its offset in bytes.
#[derive(Drop)]
pub struct Target {
    pub ty: QType,
    pub offset: u64,
}

/// The object that a part is, before its own first part.
pub fn frame_of(target: Target) -> Frame
    ensures { view_frame result ≡ spec.frame_of (view_target target) }
{
    Frame {
        ty: target.ty.ty,
        offset: target.offset,
        next: 0,
    }
}

/// The object behind the part that came next. A number that 64 bits cannot count answers want of memory, and no other.
pub fn one_on(frame: Frame) -> Result<Frame, AllocError>
    ensures { MatchResult result (λ after. view_frame after ≡ spec.one_on (view_frame frame)) (λ _. 2 ^ 64 ≤ (spec.one_on (view_frame frame)).next) }
{
    let Some(next) = frame.next.checked_add(1) else {
        return Err(AllocError);
    };
    Ok(Frame {
        ty: frame.ty,
        offset: frame.offset,
        next,
    })
}

/// Whether an array of this length, or of an open one, has an element of this number.
fn has_element(count: Option<u32>, next: u64) -> bool
    ensures { result ≡ option_map_or (nat_lt next) count true }
{
    match count {
        Some(count) => next < u64::from(count),
        None => true,
    }
}

/// The width of so many elements. Want of memory is the answer for one that 64 bits cannot count, and for no other.
fn width_of(count: u64, width: u64) -> Result<u64, AllocError>
    ensures { MatchResult result (λ bytes. bytes ≡ count * width) (λ _. 2 ^ 64 ≤ count * width) }
{
    count.checked_mul(width).ok_or(AllocError)
}

/// An offset so many bytes on. Want of memory is the answer for one that 64 bits cannot count, and for no other.
fn offset_on(offset: u64, bytes: u64) -> Result<u64, AllocError>
    ensures { MatchResult result (λ further. further ≡ offset + bytes) (λ _. 2 ^ 64 ≤ offset + bytes) }
{
    offset.checked_add(bytes).ok_or(AllocError)
}

/// The element of an array that comes next. An offset that 64 bits cannot count answers want of memory.
fn element_of(
    alloc: Global,
    types: &Types,
    element: &QType,
    count: Option<u32>,
    frame: &Frame,
) -> Result<Option<Target>, AllocError>
    ensures { IfOk result (λ t. option_map view_target t ≡ spec.element_of types.now (view_qtype element.now) count (view_frame frame.now)) }
{
    if !has_element(count, frame.next) {
        return Ok(None);
    }
    let width = told_size(types, &element.ty)?.unwrap_or(0);
    let offset = offset_on(frame.offset, width_of(frame.next, width)?)?;
    Ok(Some(Target {
        ty: copy_qtype(alloc, element)?,
        offset,
    }))
}

/// A member of a structure or union, by its number.
fn member_of(content: &Content, next: u64) -> Option<&Member>
    ensures { option_copied result ≡ slice_get content.now.members.items next }
{
    content.members.get(next as usize)
}

/// The offset of a member of a structure or union, by its number.
fn offset_of(content: &Content, next: u64) -> Option<u32>
    ensures { result ≡ slice_get content.now.offsets.items next }
{
    content.offsets.get(next as usize).copied()
}

/// A member of a structure or union with its offset, by its number.
fn in_content(content: &Content, next: u64) -> Option<(&Member, u32)>
    ensures { option_map view_found result ≡ slice_get (zip (view_members content.now.members.items) content.now.offsets.items) next }
{
    let member = member_of(content, next)?;
    let within = offset_of(content, next)?;
    Some((member, within))
}

/// The member of a structure or union by its number, and its offset; of a union only the first is initialised.
fn member_in(types: &Types, number: u32, next: u64) -> Option<(&Member, u32)>
    ensures { option_map view_found result ≡ member_in types.now number next }
{
    let record = types.record(number)?;
    let content = record.content.as_ref()?;
    if record.kind == RecordKind::Union && next > 0 {
        return None;
    }
    in_content(content, next)
}

/// The member of a structure or union that comes next. An offset that 64 bits cannot count answers want of memory.
fn member_at(
    alloc: Global,
    types: &Types,
    number: u32,
    frame: &Frame,
) -> Result<Option<Target>, AllocError>
    ensures { IfOk result (λ t. option_map view_target t ≡ spec.member_at types.now number (view_frame frame.now)) }
{
    let Some((member, within)) = member_in(types, number, frame.next) else {
        return Ok(None);
    };
    let offset = offset_on(frame.offset, u64::from(within))?;
    Ok(Some(Target {
        ty: copy_qtype(alloc, &member.ty)?,
        offset,
    }))
}

/// Whether an object has a part that comes next.
#[tactic(auto, unfolding(pw_types::specs::Views::view_type), using(pw_types::proofs::ViewLemmas::signature_view))]
pub fn has_part(types: &Types, frame: &Frame) -> bool
    ensures { result ≡ is_some (spec.next_part types.now (view_frame frame.now)) }
{
    match &frame.ty {
        CType::Array(_, count) => has_element(*count, frame.next),
        CType::Record(number) => member_in(types, *number, frame.next).is_some(),
        CType::Void | CType::Int(_) | CType::Pointer(_) | CType::Function(_) => frame.next == 0,
    }
}

/// A scalar as its own part.
fn own_part(alloc: Global, frame: &Frame) -> Result<Option<Target>, AllocError>
    ensures { IfOk result (λ t. option_map view_target t ≡ own_part (view_frame frame.now)) }
{
    if frame.next > 0 {
        return Ok(None);
    }
    Ok(Some(Target {
        ty: plain(copy_type(alloc, &frame.ty)?),
        offset: frame.offset,
    }))
}

/// The part that comes next; a scalar is its own part.
#[tactic(auto, unfolding(pw_types::specs::Views::view_type), using(pw_types::proofs::ViewLemmas::signature_view))]
pub fn next_part(alloc: Global, types: &Types, frame: &Frame) -> Result<Option<Target>, AllocError>
    ensures { IfOk result (λ t. option_map view_target t ≡ spec.next_part types.now (view_frame frame.now)) }
{
    match &frame.ty {
        CType::Array(element, count) => element_of(alloc, types, element, *count, frame),
        CType::Record(number) => member_at(alloc, types, *number, frame),
        CType::Void | CType::Int(_) | CType::Pointer(_) | CType::Function(_) => own_part(
            alloc, frame,
        ),
    }
}
