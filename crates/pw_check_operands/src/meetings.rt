//! Two operands of which one or both are pointers (C90 6.3.6, 6.3.8, 6.3.9).

ghost use Rattle.std.specs.Prelude.{◌≡◌, IfOk};
ghost use Rattle.pw_check_rules.specs.Operators as spec;
ghost use Rattle.pw_typed.specs.Views.{view_expr};

use crate::targets::target_type;
use pw_check_constants::is_null_constant;
use pw_check_types::{
    compatible_types, is_integral, is_pointer, points_to_function, points_to_object, points_to_void,
};
use pw_typed::TExpr;
use pw_types::Types;
use std::alloc::{AllocError, Global};

/// Whether both operands have integral types.
pub fn both_integral(a: &TExpr, b: &TExpr) -> bool
    ensures { result ≡ spec.both_integral (view_expr a.now) (view_expr b.now) }
{
    is_integral(&a.ty.ty) && is_integral(&b.ty.ty)
}

/// Whether the first operand is a pointer to an object, and the second a number.
pub fn pointer_and_number(types: &Types, a: &TExpr, b: &TExpr) -> bool
    ensures { result ≡ spec.pointer_and_number types.now (view_expr a.now) (view_expr b.now) }
{
    points_to_object(types, &a.ty.ty) && is_integral(&b.ty.ty)
}

/// Whether both operands are pointers to what is compatible, qualifiers aside.
pub fn pointers_agree(a: &TExpr, b: &TExpr) -> bool
    ensures { result ≡ spec.pointers_agree (view_expr a.now) (view_expr b.now) }
{
    is_pointer(&a.ty.ty)
        && is_pointer(&b.ty.ty)
        && compatible_types(target_type(&a.ty.ty), target_type(&b.ty.ty))
}

/// Whether both operands are pointers to objects that are compatible, qualifiers aside.
pub fn points_into_objects(types: &Types, a: &TExpr, b: &TExpr) -> bool
    ensures { result ≡ spec.points_into_objects types.now (view_expr a.now) (view_expr b.now) }
{
    pointers_agree(a, b) && points_to_object(types, &a.ty.ty) && points_to_object(types, &b.ty.ty)
}

/// Whether the first operand is a pointer to an object or void, and the second a pointer to void.
pub fn pointer_and_void(a: &TExpr, b: &TExpr) -> bool
    ensures { result ≡ spec.pointer_and_void (view_expr a.now) (view_expr b.now) }
{
    is_pointer(&a.ty.ty) && !points_to_function(&a.ty.ty) && points_to_void(&b.ty.ty)
}

/// Whether the first operand is a pointer, and the second a null pointer constant (C90 6.2.2.3).
pub fn pointer_and_null(alloc: Global, a: &TExpr, b: &TExpr) -> Result<bool, AllocError>
    ensures { IfOk result (λ holds. holds ≡ spec.pointer_and_null (view_expr a.now) (view_expr b.now)) }
{
    if !is_pointer(&a.ty.ty) {
        return Ok(false);
    }
    is_null_constant(alloc, b)
}

/// Whether both operands are pointers that may be compared for equality, and of which `?:` may choose (C90 6.3.9,
/// 6.3.15).
pub fn pointers_meet(alloc: Global, a: &TExpr, b: &TExpr) -> Result<bool, AllocError>
    ensures { IfOk result (λ holds. holds ≡ spec.pointers_meet (view_expr a.now) (view_expr b.now)) }
{
    if pointers_agree(a, b) || pointer_and_void(a, b) || pointer_and_void(b, a) {
        return Ok(true);
    }
    if pointer_and_null(alloc, a, b)? {
        return Ok(true);
    }
    pointer_and_null(alloc, b, a)
}
