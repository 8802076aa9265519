//! Null pointer constants (ISO C90 6.2.2.3).

ghost use Rattle.std.specs.Prelude.{◌≡◌, ◌<◌, IfOk, IfSome, option_map};
ghost use Rattle.std.specs.Option.{option_copied};
ghost use Rattle.pw_check_constants.specs.Nulls as null;
ghost use Rattle.pw_check_rules.specs.Constants as spec;
ghost use Rattle.pw_typed.specs.Views.{view_expr};
ghost use Rattle.pw_typed.specs.declared.tree.TForm.{size-TForm};
ghost use Rattle.pw_types.specs.Views.{view_type};

use crate::constants::constant_value;
use pw_check_types::is_pointer;
use pw_typed::{TExpr, TForm};
use pw_types::CType;
use std::alloc::{AllocError, Global};

/// Whether an expression is the constant 0.
pub fn is_zero_constant(alloc: Global, e: &TExpr) -> Result<bool, AllocError>
    ensures { IfOk result (λ holds. holds ≡ spec.is_zero_constant (view_expr e.now)) }
{
    match constant_value(alloc, e)? {
        Some(n) => Ok(n == 0),
        None => Ok(false),
    }
}

/// Whether a type is `void *`, without qualifiers of what it points to.
#[tactic(auto, unfolding(pw_types::specs::Views::view_type), using(pw_types::proofs::ViewLemmas::signature_view))]
fn is_plain_void_pointer(ty: &CType) -> bool
    ensures { result ≡ null.is_plain_void_pointer (view_type ty.now) }
{
    let CType::Pointer(target) = ty else {
        return false;
    };
    match &target.ty {
        CType::Void => !target.constant && !target.volatile,
        CType::Int(_)
        | CType::Pointer(_)
        | CType::Array(_, _)
        | CType::Function(_)
        | CType::Record(_) => false,
    }
}

/// Whether an expression is a null pointer constant: the constant 0, or it cast to `void *`.
#[tactic(auto, unfolding(pw_typed::specs::Views::view_form, pw_types::specs::Views::view_type))]
pub fn is_null_constant(alloc: Global, e: &TExpr) -> Result<bool, AllocError>
    ensures { IfOk result (λ holds. holds ≡ spec.is_null_constant (view_expr e.now)) }
{
    match &e.form {
        TForm::Cast(a) if is_plain_void_pointer(&e.ty.ty) => is_zero_constant(alloc, a),
        _ => is_zero_constant(alloc, e),
    }
}

/// What a conversion to a pointer converts.
#[tactic(auto, unfolding(pw_typed::specs::Views::view_form, pw_types::specs::Views::view_type))]
fn made_pointer(e: &TExpr) -> Option<&TExpr>
    ensures found { option_map view_expr (option_copied result) ≡ null.made_pointer (view_expr e.now) }
    ensures smaller { IfSome (option_copied result) (λ a. size-TForm a.form < size-TForm e.now.form) }
{
    match &e.form {
        TForm::Cast(a) if is_pointer(&e.ty.ty) => Some(a),
        _ => None,
    }
}

/// Whether a constant is a null pointer: the constant 0 converted to a pointer, once or more.
#[tactic(auto, using(crate::proofs::NullLemmas::null_step))]
pub fn is_null_pointer(alloc: Global, e: &TExpr) -> Result<bool, AllocError>
    ensures { IfOk result (λ holds. holds ≡ spec.is_null_pointer (view_expr e.now)) }
{
    let mut node = e;
    while let Some(inner) = made_pointer(node) {
        if is_zero_constant(alloc, inner)? {
            return Ok(true);
        }
        node = inner;
    }
    Ok(false)
}
