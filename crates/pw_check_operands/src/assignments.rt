//! What may be assigned (C90 6.3.16).

ghost use Rattle.std.specs.Prelude.{◌≡◌, IfOk};
ghost use Rattle.pw_check_operands.specs.Pointers as pointers;
ghost use Rattle.pw_check_rules.specs.Operators as spec;
ghost use Rattle.pw_typed.specs.Views.{view_expr};
ghost use Rattle.pw_types.specs.Views.{view_type};

use crate::choices::same_record;
use pw_check_constants::is_null_constant;
use pw_check_types::{
    compatible_types, is_integral, is_pointer, pointee, points_to_function, points_to_object,
    points_to_void, qualified_within,
};
use pw_tree::BinaryOperator;
use pw_typed::TExpr;
use pw_types::{CType, Types};
use std::alloc::{AllocError, Global};

/// Whether a pointer may be assigned to another: what it points to is compatible, or one of the two is void and the
/// other no function, and has no qualifier that the other lacks.
fn pointer_fits(to: &CType, from: &CType) -> bool
    ensures { result ≡ pointers.pointer_fits (view_type to.now) (view_type from.now) }
{
    let Some(target) = pointee(to) else {
        return false;
    };
    let Some(source) = pointee(from) else {
        return false;
    };
    qualified_within(source, target)
        && (compatible_types(&target.ty, &source.ty)
            || (points_to_void(to) && !points_to_function(from))
            || (points_to_void(from) && !points_to_function(to)))
}

/// Whether a value fits a type, as an assignment, an argument, a `return` and an initialiser ask for it (C90 6.3.16.1).
pub fn is_assignable(alloc: Global, to: &CType, e: &TExpr) -> Result<bool, AllocError>
    ensures { IfOk result (λ holds. holds ≡ spec.is_assignable (view_type to.now) (view_expr e.now)) }
{
    if is_integral(to) && is_integral(&e.ty.ty) {
        return Ok(true);
    }
    if same_record(to, &e.ty.ty) || pointer_fits(to, &e.ty.ty) {
        return Ok(true);
    }
    if !is_pointer(to) {
        return Ok(false);
    }
    is_null_constant(alloc, e)
}

/// Whether `+=` and `-=` take the operands: a number that is added to a number, or that moves a pointer (C90 6.3.16.2).
pub fn fits_sum(types: &Types, to: &CType, e: &TExpr) -> bool
    ensures { result ≡ spec.fits_sum types.now (view_type to.now) (view_expr e.now) }
{
    is_integral(&e.ty.ty) && (is_integral(to) || points_to_object(types, to))
}

/// Whether a compound assignment of the operator takes the operands (C90 6.3.16.2).
pub fn fits_compound(types: &Types, operator: BinaryOperator, to: &CType, e: &TExpr) -> bool
    ensures { result ≡ spec.fits_compound types.now operator (view_type to.now) (view_expr e.now) }
{
    let numbers = is_integral(to) && is_integral(&e.ty.ty);
    match operator {
        BinaryOperator::Add | BinaryOperator::Subtract => fits_sum(types, to, e),
        BinaryOperator::Multiply | BinaryOperator::Divide | BinaryOperator::Remainder => numbers,
        BinaryOperator::LeftShift | BinaryOperator::RightShift => numbers,
        BinaryOperator::Less | BinaryOperator::Greater => numbers,
        BinaryOperator::LessEqual | BinaryOperator::GreaterEqual => numbers,
        BinaryOperator::Equal | BinaryOperator::NotEqual => numbers,
        BinaryOperator::BitAnd | BinaryOperator::BitXor | BinaryOperator::BitOr => numbers,
        BinaryOperator::And | BinaryOperator::Or | BinaryOperator::Comma => numbers,
    }
}
