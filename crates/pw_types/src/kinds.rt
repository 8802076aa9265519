//! What types are (ISO C90 6.1.2.5).

ghost use Rattle.std.specs.Prelude.{◌≡◌};
ghost use Rattle.pw_types.specs.Kinds as spec;
ghost use Rattle.pw_types.specs.Views.{view_type};

use crate::ctype::CType;

/// Whether the type is one of the integer types; there are no other arithmetic ones.
#[tactic(auto, unfolding(crate::specs::Views::view_type), using(crate::proofs::ViewLemmas::signature_view))]
pub fn is_integral(ty: &CType) -> bool
    ensures { result ≡ spec.is_integral (view_type ty.now) }
{
    match ty {
        CType::Int(_) => true,
        CType::Void
        | CType::Pointer(_)
        | CType::Array(_, _)
        | CType::Function(_)
        | CType::Record(_) => false,
    }
}

/// Whether a type is a pointer to an object or a function (C90 6.1.2.5); an array is none.
#[tactic(auto, unfolding(crate::specs::Views::view_type), using(crate::proofs::ViewLemmas::signature_view))]
pub fn is_pointer(ty: &CType) -> bool
    ensures { result ≡ spec.is_pointer (view_type ty.now) }
{
    match ty {
        CType::Pointer(_) => true,
        CType::Void | CType::Int(_) | CType::Array(_, _) | CType::Function(_) | CType::Record(_) =>
            false,
    }
}

/// Whether a type is an integer type or a pointer.
pub fn is_scalar(ty: &CType) -> bool
    ensures { result ≡ spec.is_scalar (view_type ty.now) }
{
    is_integral(ty) || is_pointer(ty)
}

/// Whether a type is `void` itself (C90 6.1.2.5), not a pointer to it.
#[tactic(auto, unfolding(crate::specs::Views::view_type), using(crate::proofs::ViewLemmas::signature_view))]
pub fn is_void(ty: &CType) -> bool
    ensures { result ≡ spec.is_void (view_type ty.now) }
{
    match ty {
        CType::Void => true,
        CType::Int(_)
        | CType::Pointer(_)
        | CType::Array(_, _)
        | CType::Function(_)
        | CType::Record(_) => false,
    }
}

/// Whether a type is an array (C90 6.1.2.5), of whatever elements and count.
#[tactic(auto, unfolding(crate::specs::Views::view_type), using(crate::proofs::ViewLemmas::signature_view))]
pub fn is_array(ty: &CType) -> bool
    ensures { result ≡ spec.is_array (view_type ty.now) }
{
    match ty {
        CType::Array(_, _) => true,
        CType::Void | CType::Int(_) | CType::Pointer(_) | CType::Function(_) | CType::Record(_) =>
            false,
    }
}

/// Whether a type is a function type (C90 6.1.2.5), not a pointer to one.
#[tactic(auto, unfolding(crate::specs::Views::view_type), using(crate::proofs::ViewLemmas::signature_view))]
pub fn is_function(ty: &CType) -> bool
    ensures { result ≡ spec.is_function (view_type ty.now) }
{
    match ty {
        CType::Function(_) => true,
        CType::Void | CType::Int(_) | CType::Pointer(_) | CType::Array(_, _) | CType::Record(_) =>
            false,
    }
}

/// Whether the type is that of a structure or union.
#[tactic(auto, unfolding(crate::specs::Views::view_type), using(crate::proofs::ViewLemmas::signature_view))]
pub fn is_record(ty: &CType) -> bool
    ensures { result ≡ spec.is_record (view_type ty.now) }
{
    match ty {
        CType::Record(_) => true,
        CType::Void | CType::Int(_) | CType::Pointer(_) | CType::Array(_, _) | CType::Function(_) =>
            false,
    }
}
