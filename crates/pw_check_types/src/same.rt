//! Whether two types are written alike, qualifiers inside included.

ghost use Rattle.std.specs.Prelude.{◌≡◌};
ghost use Rattle.pw_check_rules.specs.Kinds as spec;
ghost use Rattle.pw_types.specs.Views.{view_type, view_qtype, view_types};

use crate::kinds::{is_kind, is_record_of};
use pw_types::{CType, QType, is_void};

/// Whether both hold or neither does.
pub(crate) fn same_truth(a: bool, b: bool) -> bool
    ensures { result ≡ spec.same_truth a b }
{
    a == b
}

/// Whether two lengths are one, or neither is known.
fn same_length(a: Option<u32>, b: Option<u32>) -> bool
    ensures { result ≡ spec.same_length a b }
{
    match (a, b) {
        (Some(a), Some(b)) => a == b,
        (None, None) => true,
        (Some(_), None) | (None, Some(_)) => false,
    }
}

/// Whether two types are written alike.
#[cycle(same)]
#[tactic(auto, unfolding(pw_types::specs::Views::view_type, pw_check_rules::specs::Kinds::same_type), using(pw_types::proofs::ViewLemmas::signature_view, crate::proofs::PairLemmas::same_void))]
pub fn same_type(a: &CType, b: &CType) -> bool
    ensures { result ≡ spec.same_type (view_type a.now) (view_type b.now) }
{
    match a {
        CType::Void => is_void(b),
        CType::Int(kind) => is_kind(*kind, b),
        CType::Pointer(target) => match b {
            CType::Pointer(other) => same_qualified(target, other),
            CType::Void
            | CType::Int(_)
            | CType::Array(_, _)
            | CType::Function(_)
            | CType::Record(_) => false,
        },
        CType::Array(element, count) => match b {
            CType::Array(other, length) => same_qualified(element, other)
                && same_length(*count, *length),
            CType::Void
            | CType::Int(_)
            | CType::Pointer(_)
            | CType::Function(_)
            | CType::Record(_) => false,
        },
        CType::Function(signature) => match b {
            CType::Function(other) => same_qualified(&signature.result, &other.result)
                && same_types(&signature.params, &other.params),
            CType::Void
            | CType::Int(_)
            | CType::Pointer(_)
            | CType::Array(_, _)
            | CType::Record(_) => false,
        },
        CType::Record(number) => is_record_of(*number, b),
    }
}

/// Whether two types with their qualifiers are written alike.
#[cycle(same)]
#[tactic(auto, unfolding(pw_check_rules::specs::Kinds::same_type))]
pub fn same_qualified(a: &QType, b: &QType) -> bool
    ensures { result ≡ spec.same_qualified (view_qtype a.now) (view_qtype b.now) }
{
    same_type(&a.ty, &b.ty)
        && same_truth(a.constant, b.constant)
        && same_truth(a.volatile, b.volatile)
}

/// Whether there are as many types in both lists, written alike one by one.
#[cycle(same)]
#[tactic(auto, unfolding(pw_check_rules::specs::Kinds::same_type))]
pub fn same_types(a: &[QType], b: &[QType]) -> bool
    ensures { result ≡ spec.same_types (view_types a.now) (view_types b.now) }
{
    let mut rest = b;
    for q in a {
        let Some((other, behind)) = rest.split_first() else {
            return false;
        };
        if !same_qualified(q, other) {
            return false;
        }
        rest = behind;
    }
    rest.is_empty()
}
