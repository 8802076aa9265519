//! Sizes and alignments of types (ISO C90 6.1.2.5), and the limit on sizes.

ghost use Rattle.std.specs.Prelude.{◌≡◌, ◌≤◌, ◌<◌, ◌+◌, ◌*◌, ◌^◌, ◌↔◌, IsTrue, option_map, option_and_then, IfSome, IfOk, IfErr, OnOk};
ghost use Rattle.pw_value.specs.Caps.{capped};
ghost use Rattle.pw_types.specs.Layouts as spec;
ghost use Rattle.pw_value.specs.Limits.{size_limit};
ghost use Rattle.pw_types.specs.Records.{IsObjectType};
ghost use Rattle.pw_types.specs.Sizes as sizes;
ghost use Rattle.pw_types.specs.Views.{view_type, view_types};

use crate::ctype::{CType, QType};
use crate::record::Layout;
use crate::types::Types;
use pw_value::limits::SIZE_LIMIT;

/// The size and alignment of a type: None exactly for void, functions, arrays of unknown length,
/// records that are not defined, and arrays of these.
///
/// Where the limit on sizes is kept, as `oversize` tests, this is the layout itself. A size that passes
/// it does not wrap: where 32 bits cannot tell it, it is the greatest that they can.
#[tactic(auto, unfolding(crate::specs::Views::view_type), using(crate::proofs::ViewLemmas::signature_view))]
pub fn layout(types: &Types, ty: &CType) -> Option<Layout>
    ensures lawful { sizes.oversize_of types.now (view_type ty.now) ≡ None → result ≡ spec.layout_of types.now (view_type ty.now) }
    ensures exact { IfSome (spec.layout_of types.now (view_type ty.now)) (λ l. l.size ≤ size_limit → result ≡ Some l) }
    ensures value { result ≡ option_map spec.told (spec.layout_of types.now (view_type ty.now)) }
{
    match ty {
        CType::Void | CType::Function(_) | CType::Array(_, None) => None,
        CType::Int(kind) => Some(Layout {
            size: u32::from(kind.size()),
            align: u32::from(kind.size()),
        }),
        CType::Pointer(_) => Some(Layout { size: 4, align: 4 }),
        CType::Array(element, Some(count)) => {
            let element = layout(types, &element.ty)?;
            Some(Layout {
                size: element.size.saturating_mul(*count),
                align: element.align,
            })
        }
        CType::Record(number) => record_layout(types, *number),
    }
}

/// The layout of the record of a number, where it is defined.
fn record_layout(types: &Types, number: u32) -> Option<Layout>
    ensures { result ≡ option_map (λ c. c.layout) (spec.content_at types.now number) }
{
    let content = types.record(number)?.content.as_ref()?;
    Some(content.layout)
}

/// The size of a type in bytes: None where it has no layout, and the greatest u64 where it would be
/// more.
#[tactic(auto, unfolding(crate::specs::Views::view_type), using(crate::proofs::ViewLemmas::signature_view))]
pub fn size(types: &Types, ty: &CType) -> Option<u64>
    ensures { result ≡ option_map capped (spec.size_of types.now (view_type ty.now)) }
{
    match ty {
        CType::Void | CType::Function(_) | CType::Array(_, None) => None,
        CType::Int(kind) => Some(u64::from(kind.size())),
        CType::Pointer(_) => Some(4),
        CType::Array(element, Some(count)) => {
            let element = size(types, &element.ty)?;
            Some(element.saturating_mul(u64::from(*count)))
        }
        CType::Record(number) => record_size(types, *number),
    }
}

/// Whether a type is one that an object can have: it is complete and keeps the limit on sizes.
pub fn is_object_type(types: &Types, ty: &CType) -> bool
    ensures { IsTrue result ↔ IsObjectType types.now (view_type ty.now) }
{
    match layout(types, ty) {
        Some(layout) => layout.size <= SIZE_LIMIT,
        None => false,
    }
}

/// The size in bytes of the first type that passes the limit on sizes, among those that a type is made
/// of: from its element outward, also behind pointers, and of a function the result before the
/// parameters. None where they all keep the limit.
pub fn oversize(types: &Types, ty: &CType) -> Option<u64>
    ensures { result ≡ sizes.oversize_of types.now (view_type ty.now) }
{
    kept_size(types, ty).err()
}

/// The size of a type that keeps the limit with all that it is made of; else the size of the first that
/// passes it.
#[cycle(kept_size)]
#[tactic(auto, unfolding(crate::specs::Views::view_type), using(crate::proofs::ViewLemmas::signature_view))]
fn kept_size(types: &Types, ty: &CType) -> Result<Option<u32>, u64>
    ensures kept { IfOk result (λ size. sizes.oversize_of types.now (view_type ty.now) ≡ None) }
    ensures size { IfOk result (λ size. size ≡ spec.size_of types.now (view_type ty.now)) }
    ensures passed { IfErr result (λ size. sizes.oversize_of types.now (view_type ty.now) ≡ Some size) }
{
    match ty {
        CType::Void => Ok(None),
        CType::Int(kind) => Ok(Some(u32::from(kind.size()))),
        CType::Pointer(target) => {
            let _ = kept_size(types, &target.ty)?;
            Ok(Some(4))
        }
        CType::Array(element, count) => {
            let element = kept_size(types, &element.ty)?;
            within(array_size(element, *count))
        }
        CType::Function(signature) => {
            let _ = kept_size(types, &signature.result.ty)?;
            keep_sizes(types, &signature.params)?;
            Ok(None)
        }
        CType::Record(number) => within(record_size(types, *number)),
    }
}

/// The same of several types in order.
#[cycle(kept_size)]
#[tactic(auto, unfolding(crate::specs::Views::view_type))]
fn keep_sizes(types: &Types, all: &[QType]) -> Result<(), u64>
    ensures kept { OnOk result (sizes.first_oversize types.now (view_types all.now) ≡ None) }
    ensures passed { IfErr result (λ size. sizes.first_oversize types.now (view_types all.now) ≡ Some size) }
{
    for ty in all {
        let _ = kept_size(types, &ty.ty)?;
    }
    Ok(())
}

/// A size that keeps the limit; else the size that passes it.
fn within(size: Option<u64>) -> Result<Option<u32>, u64>
    ensures kept { IfOk result (λ kept. (sizes.passing size ≡ None) × (kept ≡ size)) }
    ensures passed { IfErr result (λ above. sizes.passing size ≡ Some above) }
{
    match size {
        Some(size) if size > u64::from(SIZE_LIMIT) => Err(size),
        Some(size) => Ok(Some(size as u32)),
        None => Ok(None),
    }
}

/// The size of an array by its element's size and its length.
fn array_size(element: Option<u32>, count: Option<u32>) -> Option<u64>
    ensures { result ≡ option_and_then (λ n. option_map (λ size. size * n) element) count }
{
    let count = count?;
    Some(u64::from(element?) * u64::from(count))
}

/// The size of the record of a number, where it is defined.
fn record_size(types: &Types, number: u32) -> Option<u64>
    ensures { result ≡ option_map (λ c. c.layout.size) (spec.content_at types.now number) }
{
    let layout = record_layout(types, number)?;
    Some(u64::from(layout.size))
}

/// The least multiple of an alignment that is not below a number.
pub fn round_up(number: u128, align: u32) -> u128
    requires aligned { 1 ≤ align }
    requires fits { number < 2 ^ 100 }
    ensures value { result ≡ spec.round_up number align }
    ensures near { result ≤ number + align }
{
    let align = u128::from(align);
    (number + (align - 1)) / align * align
}
