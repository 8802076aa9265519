//! What the definition of a structure or union type comes to: its size and alignment, its members'
//! offsets, its shape and its depth.

ghost use Rattle.std.specs.Prelude.{◌≡◌, ◌+◌, ◌<◌, ◌≤◌, ◌^◌, ◌++◌, All, IfOk, IfErr, OnOk, IsTrue, ◌↔◌, Some};
ghost use Rattle.pw_types.specs.Layouts as spec;
ghost use Rattle.pw_types.specs.Records.{IsObjectType, layouts_of, deepest as depth_of_deepest};
ghost use Rattle.pw_value.specs.Caps.{capped};
ghost use Rattle.pw_types.specs.Measures.{Measures, size_by, offsets_by, Defines, Refuses};
ghost use Rattle.pw_types.specs.Shapes.{record_shape, member_shapes};
ghost use Rattle.pw_types.specs.TypeTrees.{type_of};
ghost use Rattle.pw_types.specs.Views.{view_type, view_members, view_content};

use crate::depths::depth;
use crate::layouts::{is_object_type, layout, round_up};
use crate::record::{Content, Layout, Member, RecordKind};
use crate::shapes::{closing, opening, push_shape};
use crate::types::Types;
use pw_value::limits::{DEPTH_LIMIT, SHAPE_LIMIT, SIZE_LIMIT};
use pw_value::{Shape, cap, clip, push_decimal};
use std::alloc::{AllocError, Global};

/// Why a structure or union type is refused: its size, the length of its shape or its depth passes the
/// limit, with that number, or there is no memory.
#[derive(Clone, Copy)]
pub enum RecordFault {
    /// The size passes its limit: so many bytes.
    TooLarge(u64),
    /// The shape passes its limit: so many bytes.
    ShapeTooLong(u64),
    /// The depth of the type passes its limit: so many levels.
    TooDeep(u64),
    /// Memory ran out.
    NoMemory,
}

impl From<AllocError> for RecordFault {
    ghost use Rattle.std.specs.Prelude.{◌≡◌};
    ghost use Rattle.pw_types.specs.declared.contents.RecordFault.TheVariants.{NoMemory};

    ghost from_gives = { λ _ fault. fault ≡ NoMemory };

    fn from(_none: AllocError) -> RecordFault {
        RecordFault::NoMemory
    }
}

/// What members take that stand one after another: their offsets, as far as 32 bits can tell them,
/// where the last one ends, the greatest size and the greatest alignment.
#[derive(Drop)]
pub(crate) struct Measure {
    pub offsets: Vec<u32>,
    pub end: u128,
    pub largest: u32,
    pub align: u32,
}

/// Whether the types of members are types that objects can have.
pub fn are_object_types(types: &Types, members: &[Member]) -> bool
    ensures { IsTrue result ↔ All (λ m. IsObjectType types.now (type_of m.ty)) (view_members members.now) }
{
    members
        .iter()
        .all(|member| is_object_type(types, &member.ty.ty))
}

/// The layout of a member.
fn member_layout(types: &Types, member: &Member) -> Layout
    requires { IsObjectType types.now (view_type member.now.ty.ty) }
    ensures value { spec.layout_of types.now (view_type member.now.ty.ty) ≡ Some result }
    ensures aligned { 1 ≤ result.align }
{
    let _laid = types.records();
    layout(types, &member.ty.ty).unwrap()
}

/// Measures members whose types are complete.
fn measured(alloc: Global, types: &Types, members: &[Member]) -> Result<Measure, AllocError>
    requires { All (λ m. IsObjectType types.now (type_of m.ty)) (view_members members.now) }
    ensures { IfOk result (Measures (layouts_of types.now (view_members members.now))) }
{
    let mut offsets = Vec::new(alloc);
    let mut end: u128 = 0;
    let mut largest: u32 = 0;
    let mut align: u32 = 1;
    for member in members {
        let layout = member_layout(types, member);
        let offset = round_up(end, layout.align);
        offsets.push(clip(offset))?;
        end = offset + u128::from(layout.size);
        largest = largest.max(layout.size);
        align = align.max(layout.align);
    }
    Ok(Measure {
        offsets,
        end,
        largest,
        align,
    })
}

/// The size of a record by the measures of its members.
fn record_size(kind: RecordKind, measure: &Measure) -> u128
    requires { (1 ≤ measure.now.align) × (measure.now.end < 2 ^ 100) }
    ensures { result ≡ size_by kind measure.now }
{
    match kind {
        RecordKind::Structure => round_up(measure.end, measure.align),
        RecordKind::Union => round_up(u128::from(measure.largest), measure.align),
    }
}

/// The offsets of the members of a record: those of members one after another, or all 0.
fn record_offsets(
    alloc: Global,
    kind: RecordKind,
    offsets: Vec<u32>,
    count: usize,
) -> Result<Vec<u32>, AllocError>
    ensures { IfOk result (λ v. v.items ≡ offsets_by kind offsets.items count) }
{
    match kind {
        RecordKind::Structure => Ok(offsets),
        RecordKind::Union => vec![in alloc; 0; count],
    }
}

/// The shape of a record of a size.
fn record_text(
    alloc: Global,
    types: &Types,
    kind: RecordKind,
    size: u32,
    members: &[Member],
) -> Result<Vec<u8>, AllocError>
    ensures { IfOk result (λ text. text.items ≡ record_shape kind size (member_shapes types.now (view_members members.now))) }
{
    let mut text = Vec::new(alloc);
    text.push(opening(kind))?;
    push_decimal(&mut text, u64::from(size))?;
    text.push(b':')?;
    push_members(&mut text, types, members)?;
    text.push(closing(kind))?;
    Ok(text)
}

/// Puts the shapes of members, one after another.
fn push_members(text: &mut Vec<u8>, types: &Types, members: &[Member]) -> Result<(), AllocError>
    ensures { OnOk result (text.new.items ≡ text.old.items ++ member_shapes types.now (view_members members.now)) }
{
    for member in members {
        push_shape(text, types, &member.ty.ty, member.ty.volatile)?;
    }
    Ok(())
}

/// The depth of the deepest member, as far as 64 bits can tell it.
fn deepest(types: &Types, members: &[Member]) -> u64
    ensures { result ≡ capped (depth_of_deepest types.now (view_members members.now)) }
{
    let mut greatest = 0;
    for member in members {
        greatest = depth(types, &member.ty.ty).max(greatest);
    }
    greatest
}

/// What the definition of a structure or union type comes to, whose members have complete types. It is
/// refused for its size, else for the length of its shape, else for its depth, where one passes its
/// limit.
pub fn record_content(
    alloc: Global,
    types: &Types,
    kind: RecordKind,
    members: Vec<Member>,
) -> Result<Content, RecordFault>
    requires { All (λ m. IsObjectType types.now (type_of m.ty)) (view_members members.items) }
    ensures ok { IfOk result (λ content. Defines types.now kind (view_members members.items) (view_content content)) }
    ensures refused { IfErr result (Refuses types.now kind (view_members members.items)) }
{
    let _laid = types.records();
    let measure = measured(alloc, types, &members)?;
    let size = record_size(kind, &measure);
    if size > u128::from(SIZE_LIMIT) {
        return Err(RecordFault::TooLarge(cap(size)));
    }
    let layout = Layout {
        size: size as u32,
        align: measure.align,
    };
    let text = record_text(alloc, types, kind, layout.size, &members)?;
    if text.len() > SHAPE_LIMIT {
        return Err(RecordFault::ShapeTooLong(text.len() as u64));
    }
    let depth = deepest(types, &members).saturating_add(1);
    if depth > DEPTH_LIMIT {
        return Err(RecordFault::TooDeep(depth));
    }
    let offsets = record_offsets(alloc, kind, measure.offsets, members.len())?;
    Ok(Content {
        members,
        offsets,
        layout,
        shape: Shape::new(text),
        depth: depth as u32,
    })
}
