//! The depth of types.

ghost use Rattle.std.specs.Prelude.{◌≡◌, min, ◌^◌, ◌-◌};
ghost use Rattle.std.specs.Option.{option_map_or};
ghost use Rattle.pw_types.specs.Layouts.{content_at};
ghost use Rattle.pw_value.specs.Caps.{capped};
ghost use Rattle.pw_types.specs.Records as spec;
ghost use Rattle.pw_types.specs.Views.{view_type, view_types};

use crate::ctype::{CType, QType};
use crate::kinds::is_record;
use crate::types::Types;

/// The depth of a type: the pointers, arrays, functions and records that lie within one another in it.
/// A record counts one more than its deepest member, and a pointer to a record ends there. It is the
/// greatest u64 where it would be more.
#[cycle(depth)]
#[tactic(auto, unfolding(crate::specs::Views::view_type), using(crate::proofs::ViewLemmas::signature_view))]
pub fn depth(types: &Types, ty: &CType) -> u64
    ensures { result ≡ capped (spec.depth_of types.now (view_type ty.now)) }
{
    match ty {
        CType::Void | CType::Int(_) => 0,
        CType::Pointer(target) if is_record(&target.ty) => 1,
        CType::Pointer(target) => depth(types, &target.ty).saturating_add(1),
        CType::Array(element, _) => depth(types, &element.ty).saturating_add(1),
        CType::Function(signature) => depth(types, &signature.result.ty)
            .max(greatest_depth(types, &signature.params))
            .saturating_add(1),
        CType::Record(number) => record_depth(types, *number),
    }
}

/// The depth of the deepest of several types, as far as 64 bits can tell it.
#[cycle(depth)]
fn greatest_depth(types: &Types, all: &[QType]) -> u64
    ensures { result ≡ capped (spec.greatest_depth types.now (view_types all.now)) }
{
    let mut greatest = 0;
    for ty in all {
        greatest = depth(types, &ty.ty).max(greatest);
    }
    greatest
}

/// The depth of the record of a number.
fn record_depth(types: &Types, number: u32) -> u64
    ensures { result ≡ option_map_or (λ c. c.depth) (content_at types.now number) 1 }
{
    match types.record(number) {
        Some(definition) => match &definition.content {
            Some(content) => u64::from(content.depth),
            None => 1,
        },
        None => 1,
    }
}
