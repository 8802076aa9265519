//! What pointers point to, and what functions take and return.

ghost use Rattle.std.specs.Prelude.{◌≡◌, false, IfSome, IfNone};
ghost use Rattle.pw_check_rules.specs.Kinds as spec;
ghost use Rattle.pw_types.specs.TypeTrees as tree;
ghost use Rattle.pw_types.specs.declared.ctype.Signature.{out-Signature};
ghost use Rattle.pw_types.specs.Views.{view_type, view_qtype, view_types};

use crate::objects::is_complete;
use pw_types::{CType, QType, Signature, Types, is_function, is_record, is_void};

/// What a pointer points to, or None where the type is no pointer.
#[tactic(auto, unfolding(pw_types::specs::Views::view_type), using(pw_types::proofs::ViewLemmas::signature_view))]
pub fn pointee(ty: &CType) -> Option<&QType>
    ensures pointer { IfSome result (λ q. view_type ty.now ≡ tree.Pointer (view_qtype q.now)) }
    ensures none { IfNone result (spec.is_pointer (view_type ty.now) ≡ false) }
    ensures itself { IfNone result (spec.pointee (view_type ty.now) ≡ spec.plain (view_type ty.now)) }
{
    match ty {
        CType::Pointer(target) => Some(target),
        CType::Void | CType::Int(_) | CType::Array(_, _) | CType::Function(_) | CType::Record(_) =>
            None,
    }
}

/// What a function takes and returns, or None where the type is not that of a function.
#[tactic(auto, unfolding(pw_types::specs::Views::view_type), using(pw_types::proofs::ViewLemmas::signature_view))]
pub fn signature_in(ty: &CType) -> Option<&Signature>
    ensures function { IfSome result (λ s. view_type ty.now ≡ tree.Function (view_qtype (out-Signature s.now).result) (view_types (out-Signature s.now).params.items)) }
    ensures none { IfNone result (spec.is_function (view_type ty.now) ≡ false) }
{
    match ty {
        CType::Function(signature) => Some(signature),
        CType::Void | CType::Int(_) | CType::Pointer(_) | CType::Array(_, _) | CType::Record(_) =>
            None,
    }
}

/// Whether a type is a pointer to an object type, with which arithmetic is done.
#[tactic(auto, unfolding(pw_types::specs::Views::view_type), using(pw_types::proofs::ViewLemmas::signature_view))]
pub fn points_to_object(types: &Types, ty: &CType) -> bool
    ensures { result ≡ spec.points_to_object types.now (view_type ty.now) }
{
    match ty {
        CType::Pointer(target) => is_complete(types, &target.ty),
        CType::Void | CType::Int(_) | CType::Array(_, _) | CType::Function(_) | CType::Record(_) =>
            false,
    }
}

/// Whether a type is a pointer to a function.
#[tactic(auto, unfolding(pw_types::specs::Views::view_type), using(pw_types::proofs::ViewLemmas::signature_view))]
pub fn points_to_function(ty: &CType) -> bool
    ensures { result ≡ spec.points_to_function (view_type ty.now) }
{
    match ty {
        CType::Pointer(target) => is_function(&target.ty),
        CType::Void | CType::Int(_) | CType::Array(_, _) | CType::Function(_) | CType::Record(_) =>
            false,
    }
}

/// Whether a type is a pointer to `void`.
#[tactic(auto, unfolding(pw_types::specs::Views::view_type), using(pw_types::proofs::ViewLemmas::signature_view))]
pub fn points_to_void(ty: &CType) -> bool
    ensures { result ≡ spec.points_to_void (view_type ty.now) }
{
    match ty {
        CType::Pointer(target) => is_void(&target.ty),
        CType::Void | CType::Int(_) | CType::Array(_, _) | CType::Function(_) | CType::Record(_) =>
            false,
    }
}

/// Whether a type is a pointer to a structure or union.
#[tactic(auto, unfolding(pw_types::specs::Views::view_type), using(pw_types::proofs::ViewLemmas::signature_view))]
pub fn points_to_record(ty: &CType) -> bool
    ensures { result ≡ spec.points_to_record (view_type ty.now) }
{
    match ty {
        CType::Pointer(target) => is_record(&target.ty),
        CType::Void | CType::Int(_) | CType::Array(_, _) | CType::Function(_) | CType::Record(_) =>
            false,
    }
}
