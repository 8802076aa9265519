//! What binary operators ask of their operands (C90 6.3.5 to 6.3.12).

ghost use Rattle.std.specs.Prelude.{◌≡◌, IfOk};
ghost use Rattle.pw_check_rules.specs.Operators as spec;
ghost use Rattle.pw_typed.specs.Views.{view_expr};

use crate::meetings::{
    both_integral, pointer_and_number, pointers_agree, pointers_meet, points_into_objects,
};
use pw_check_types::points_to_function;
use pw_tree::BinaryOperator;
use pw_typed::TExpr;
use pw_types::Types;
use std::alloc::{AllocError, Global};

/// Whether two operands can be told which is less: numbers, or pointers to what is compatible and no function (C90
/// 6.3.8).
pub fn fits_order(a: &TExpr, b: &TExpr) -> bool
    ensures { result ≡ spec.fits_order (view_expr a.now) (view_expr b.now) }
{
    both_integral(a, b) || (pointers_agree(a, b) && !points_to_function(&a.ty.ty))
}

/// Whether a binary operator takes the operands.
pub fn fits_binary(
    alloc: Global,
    types: &Types,
    operator: BinaryOperator,
    a: &TExpr,
    b: &TExpr,
) -> Result<bool, AllocError>
    ensures { IfOk result (λ holds. holds ≡ spec.fits_binary types.now operator (view_expr a.now) (view_expr b.now)) }
{
    let numbers = both_integral(a, b);
    match operator {
        BinaryOperator::Add => Ok(
            numbers || pointer_and_number(types, a, b) || pointer_and_number(types, b, a),
        ),
        BinaryOperator::Subtract => Ok(
            numbers || pointer_and_number(types, a, b) || points_into_objects(types, a, b),
        ),
        BinaryOperator::Less | BinaryOperator::Greater => Ok(fits_order(a, b)),
        BinaryOperator::LessEqual | BinaryOperator::GreaterEqual => Ok(fits_order(a, b)),
        BinaryOperator::Equal | BinaryOperator::NotEqual => {
            Ok(numbers || pointers_meet(alloc, a, b)?)
        }
        BinaryOperator::Multiply | BinaryOperator::Divide | BinaryOperator::Remainder => {
            Ok(numbers)
        }
        BinaryOperator::LeftShift | BinaryOperator::RightShift => Ok(numbers),
        BinaryOperator::BitAnd | BinaryOperator::BitXor | BinaryOperator::BitOr => Ok(numbers),
        BinaryOperator::And | BinaryOperator::Or | BinaryOperator::Comma => Ok(numbers),
    }
}
