//! What pointers point to. Where no pointer is asked for, the rules take the type itself.

ghost use Rattle.std.specs.Prelude.{◌≡◌, IfOk};
ghost use Rattle.pw_check_operands.specs.Targets.{view_target};
ghost use Rattle.pw_check_rules.specs.Kinds as spec;
ghost use Rattle.pw_types.specs.TypeTrees.{type_of};
ghost use Rattle.pw_types.specs.Views.{view_qtype, view_type};

use pw_check_types::{copy_type, pointee};
use pw_types::{CType, QType};
use std::alloc::{AllocError, Global};

/// What a pointer points to, with its qualifiers.
#[derive(Clone, Copy)]
pub struct Target<'t> {
    pub ty: &'t CType,
    pub constant: bool,
    pub volatile: bool,
}

/// What a pointer points to; of another type the type itself.
pub fn target_of(ty: &CType) -> Target<'_>
    ensures { view_target result ≡ spec.pointee (view_type ty.now) }
{
    match pointee(ty) {
        Some(target) => Target {
            ty: &target.ty,
            constant: target.constant,
            volatile: target.volatile,
        },
        None => Target {
            ty,
            constant: false,
            volatile: false,
        },
    }
}

/// What a pointer points to, without qualifiers; of another type the type itself.
pub fn target_type(ty: &CType) -> &CType
    ensures { view_type result.now ≡ type_of (spec.pointee (view_type ty.now)) }
{
    target_of(ty).ty
}

/// A copy of what a pointer points to; of another type of the type itself.
pub fn copy_target(alloc: Global, ty: &CType) -> Result<QType, AllocError>
    ensures { IfOk result (λ q. view_qtype q ≡ spec.pointee (view_type ty.now)) }
{
    let target = target_of(ty);
    Ok(QType {
        ty: copy_type(alloc, target.ty)?,
        constant: target.constant,
        volatile: target.volatile,
    })
}
