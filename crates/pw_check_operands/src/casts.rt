//! Casts (C90 6.3.4).

ghost use Rattle.std.specs.Prelude.{◌≡◌, IfOk};
ghost use Rattle.pw_check_rules.specs.Operators as spec;
ghost use Rattle.pw_typed.specs.Views.{view_expr};
ghost use Rattle.pw_types.specs.Views.{view_type};

use pw_check_constants::{is_null_constant, is_zero_constant};
use pw_check_types::{is_integral, is_pointer, is_scalar, is_void, points_to_function};
use pw_typed::TExpr;
use pw_types::CType;
use std::alloc::{AllocError, Global};

/// Whether an expression can be cast to a type: everything to void, else a scalar to a scalar. An object pointer and a
/// function pointer are two things.
pub fn fits_cast(alloc: Global, to: &CType, e: &TExpr) -> Result<bool, AllocError>
    ensures { IfOk result (λ holds. holds ≡ spec.fits_cast (view_type to.now) (view_expr e.now)) }
{
    if is_void(to) {
        return Ok(true);
    }
    if !is_scalar(to) || !is_scalar(&e.ty.ty) {
        return Ok(false);
    }
    if !is_pointer(to) || !is_pointer(&e.ty.ty) {
        return Ok(true);
    }
    let to_function = points_to_function(to);
    let from_function = points_to_function(&e.ty.ty);
    if (to_function && from_function) || (!to_function && !from_function) {
        return Ok(true);
    }
    is_null_constant(alloc, e)
}

/// Whether a cast is one between a pointer and a number that is not the constant 0.
pub fn mixes_pointer(alloc: Global, to: &CType, e: &TExpr) -> Result<bool, AllocError>
    ensures { IfOk result (λ holds. holds ≡ spec.mixes_pointer (view_type to.now) (view_expr e.now)) }
{
    if is_integral(to) && is_pointer(&e.ty.ty) {
        return Ok(true);
    }
    if !is_pointer(to) || !is_integral(&e.ty.ty) {
        return Ok(false);
    }
    Ok(!is_zero_constant(alloc, e)?)
}
