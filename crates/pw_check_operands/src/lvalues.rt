//! What can be changed (C90 6.2.2.1, 6.3.2.4).

ghost use Rattle.std.specs.Prelude.{◌≡◌};
ghost use Rattle.pw_check_state.specs.Views.{view_operand};
ghost use Rattle.pw_check_rules.specs.Operators as spec;
ghost use Rattle.pw_types.specs.Views.{view_type};

use pw_check_state::Operand;
use pw_check_types::{is_array, is_complete, is_free_of_const, is_integral, points_to_object};
use pw_types::{CType, Types};

/// Whether an operand is an lvalue that can be changed.
pub fn is_modifiable(types: &Types, a: &Operand) -> bool
    ensures { result ≡ spec.is_modifiable types.now (view_operand a.now) }
{
    a.lvalue
        && !is_array(&a.node.ty.ty)
        && is_complete(types, &a.node.ty.ty)
        && is_free_of_const(types, &a.node.ty)
}

/// Whether `++` and `--` take an operand of the type.
pub fn can_step(types: &Types, ty: &CType) -> bool
    ensures { result ≡ spec.can_step types.now (view_type ty.now) }
{
    is_integral(ty) || points_to_object(types, ty)
}
