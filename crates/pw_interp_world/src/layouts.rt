//! Layouts as the definitions have them, and values put into objects of a type.

ghost use Rattle.std.specs.Prelude.{IfOk};
ghost use Rattle.pw_types.specs.Layouts.{layout_of};
ghost use Rattle.pw_types.specs.Views.{view_type};
ghost use Rattle.pw_interp_state.specs.Answers.{Changes};
ghost use Rattle.pw_interp_state.specs.Accesses.{value_put};
ghost use Rattle.pw_interp_state.specs.Categories.{category_of, view_purpose};
ghost use Rattle.pw_interp_state.specs.Elements as elements;
ghost use Rattle.pw_interp_world.specs.Told.{TellsLayout};

use pw_interp_state::{Fault, Objects, Purpose, categorise, put};
use pw_types::{CType, Layout, Types, layout};
use pw_value::Value;
use std::alloc::{AllocError, Global};

/// The layout of a type. There is no memory for one of 2^32 - 1 bytes or more, which passes the limit on sizes, and for
/// no other.
#[tactic(auto, using(crate::proofs::LayoutLemmas::told_is))]
pub fn exact_layout(types: &Types, ty: &CType) -> Result<Option<Layout>, AllocError>
    ensures { TellsLayout (layout_of types.now (view_type ty.now)) result }
{
    match layout(types, ty) {
        Some(layout) if layout.size == u32::MAX => Err(AllocError),
        known => Ok(known),
    }
}

/// The layout of what a pointer among two operands of these types points to, of two the first.
#[tactic(auto, unfolding(pw_types::specs::Views::view_type), using(pw_types::proofs::ViewLemmas::signature_view))]
pub fn element_layout(types: &Types, a: &CType, b: &CType) -> Result<Option<Layout>, AllocError>
    ensures { TellsLayout (elements.element_layout types.now (view_type a.now) (view_type b.now)) result }
{
    match a {
        CType::Pointer(target) => exact_layout(types, &target.ty),
        CType::Int(_) => second_layout(types, b),
        CType::Void | CType::Array(_, _) | CType::Function(_) | CType::Record(_) => Ok(None),
    }
}

/// The layout of what a pointer behind a number points to.
#[tactic(auto, unfolding(pw_types::specs::Views::view_type), using(pw_types::proofs::ViewLemmas::signature_view))]
fn second_layout(types: &Types, b: &CType) -> Result<Option<Layout>, AllocError>
    ensures { TellsLayout (elements.second_layout types.now (view_type b.now)) result }
{
    match b {
        CType::Pointer(target) => exact_layout(types, &target.ty),
        CType::Void | CType::Int(_) | CType::Array(_, _) | CType::Function(_) | CType::Record(_) =>
            Ok(None),
    }
}

/// Puts a value into an object of a type.
pub fn put_value(
    alloc: Global,
    objects: &mut Objects,
    purpose: Purpose,
    types: &Types,
    ty: &CType,
    place: Value,
    value: Value,
) -> Result<Result<(), Fault>, AllocError>
    ensures { IfOk result (λ r. Changes objects.old (value_put (view_purpose purpose) objects.old (category_of (view_type ty.now)) (layout_of types.now (view_type ty.now)) place value) r objects.new) }
{
    let layout = exact_layout(types, ty)?;
    put(
        alloc,
        objects,
        purpose,
        categorise(ty),
        layout,
        place,
        value,
    )
}
