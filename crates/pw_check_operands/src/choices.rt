//! Two operands of which one is chosen (C90 6.3.15), and what two pointers become.

ghost use Rattle.std.specs.Prelude.{◌≡◌, IfOk};
ghost use Rattle.pw_check_operands.specs.Pointers.{joined};
ghost use Rattle.pw_check_operands.specs.Targets.{view_target};
ghost use Rattle.pw_check_rules.specs.Operators as spec;
ghost use Rattle.pw_typed.specs.Views.{view_expr};
ghost use Rattle.pw_types.specs.Views.{view_type};

use crate::conversions::common_kind;
use crate::meetings::{both_integral, pointers_meet};
use crate::targets::{Target, target_of};
use pw_check_constants::is_null_constant;
use pw_check_types::{composite_type, copy_type, is_pointer, is_void, points_to_void};
use pw_typed::TExpr;
use pw_types::{CType, QType};
use std::alloc::{AllocError, Global};

/// Whether two types are one structure or union.
#[tactic(auto, unfolding(pw_types::specs::Views::view_type), using(pw_types::proofs::ViewLemmas::signature_view))]
pub fn same_record(a: &CType, b: &CType) -> bool
    ensures { result ≡ spec.same_record (view_type a.now) (view_type b.now) }
{
    match (a, b) {
        (CType::Record(number), CType::Record(other)) => number == other,
        (_, _) => false,
    }
}

/// Whether `?:` may choose of two operands.
pub fn fits_choice(alloc: Global, a: &TExpr, b: &TExpr) -> Result<bool, AllocError>
    ensures { IfOk result (λ holds. holds ≡ spec.fits_choice (view_expr a.now) (view_expr b.now)) }
{
    if both_integral(a, b) || same_record(&a.ty.ty, &b.ty.ty) {
        return Ok(true);
    }
    if is_void(&a.ty.ty) && is_void(&b.ty.ty) {
        return Ok(true);
    }
    pointers_meet(alloc, a, b)
}

/// A pointer to a type with the qualifiers of either of two.
#[tactic(auto, unfolding(pw_types::specs::Views::view_type))]
fn pointer_with_both(
    alloc: Global,
    ty: CType,
    a: Target<'_>,
    b: Target<'_>,
) -> Result<CType, AllocError>
    ensures { IfOk result (λ made. view_type made ≡ spec.pointer_with_both (view_type ty) (view_target a.entry) (view_target b.entry)) }
{
    let target = QType {
        ty,
        constant: a.constant || b.constant,
        volatile: a.volatile || b.volatile,
    };
    Ok(CType::Pointer(Box::new(alloc, target)?))
}

/// The pointer that two pointers become, neither of which is a null pointer constant.
#[tactic(auto, unfolding(pw_types::specs::Views::view_type))]
fn joined_pointer(alloc: Global, a: &CType, b: &CType) -> Result<CType, AllocError>
    ensures { IfOk result (λ ty. view_type ty ≡ joined (view_type a.now) (view_type b.now)) }
{
    let first = target_of(a);
    let second = target_of(b);
    if points_to_void(a) || points_to_void(b) {
        return pointer_with_both(alloc, CType::Void, first, second);
    }
    let ty = composite_type(alloc, first.ty, second.ty)?;
    pointer_with_both(alloc, ty, first, second)
}

/// The pointer that two pointers become, of which one may be a null pointer constant.
pub fn chosen_pointer(alloc: Global, a: &TExpr, b: &TExpr) -> Result<CType, AllocError>
    ensures { IfOk result (λ ty. view_type ty ≡ spec.chosen_pointer (view_expr a.now) (view_expr b.now)) }
{
    if is_pointer(&a.ty.ty) && is_null_constant(alloc, b)? {
        return copy_type(alloc, &a.ty.ty);
    }
    if is_null_constant(alloc, a)? {
        return copy_type(alloc, &b.ty.ty);
    }
    joined_pointer(alloc, &a.ty.ty, &b.ty.ty)
}

/// The type of the result of `?:` (C90 6.3.15): of two integers that of the usual conversions, of pointers that to
/// which both are converted, else the type of the first.
#[tactic(auto, unfolding(pw_types::specs::Views::view_type))]
pub fn choice_type(alloc: Global, a: &TExpr, b: &TExpr) -> Result<CType, AllocError>
    ensures { IfOk result (λ ty. view_type ty ≡ spec.choice_type (view_expr a.now) (view_expr b.now)) }
{
    if both_integral(a, b) {
        return Ok(CType::Int(common_kind(a, b)));
    }
    if is_pointer(&a.ty.ty) || is_pointer(&b.ty.ty) {
        return chosen_pointer(alloc, a, b);
    }
    copy_type(alloc, &a.ty.ty)
}
