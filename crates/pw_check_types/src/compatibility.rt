//! Compatible types (C90 6.1.2.6, 6.5.2 to 6.5.4).

ghost use Rattle.std.specs.Prelude.{◌≡◌};
ghost use Rattle.pw_check_rules.specs.Compatible as spec;
ghost use Rattle.pw_types.specs.Views.{view_type, view_qtype, view_types};

use crate::kinds::{is_kind, is_record_of};
use crate::same::same_truth;
use pw_types::{CType, QType, is_void};

/// Whether two lengths do not differ, where both are known.
fn lengths_agree(a: Option<u32>, b: Option<u32>) -> bool
    ensures { result ≡ spec.lengths_agree a b }
{
    match (a, b) {
        (Some(a), Some(b)) => a == b,
        (Some(_), None) | (None, Some(_)) | (None, None) => true,
    }
}

/// Whether two types without their qualifiers are compatible.
#[cycle(compatible)]
#[tactic(auto, unfolding(pw_types::specs::Views::view_type, pw_check_rules::specs::Compatible::compatible_types), using(pw_types::proofs::ViewLemmas::signature_view, crate::proofs::PairLemmas::compatible_void, crate::proofs::PairLemmas::compatible_int, crate::proofs::PairLemmas::compatible_record))]
pub fn compatible_types(a: &CType, b: &CType) -> bool
    ensures { result ≡ spec.compatible_types (view_type a.now) (view_type b.now) }
{
    match a {
        CType::Void => is_void(b),
        CType::Int(kind) => is_kind(*kind, b),
        CType::Pointer(target) => match b {
            CType::Pointer(other) => compatible(target, other),
            CType::Void
            | CType::Int(_)
            | CType::Array(_, _)
            | CType::Function(_)
            | CType::Record(_) => false,
        },
        CType::Array(element, count) => match b {
            CType::Array(other, length) => compatible(element, other)
                && lengths_agree(*count, *length),
            CType::Void
            | CType::Int(_)
            | CType::Pointer(_)
            | CType::Function(_)
            | CType::Record(_) => false,
        },
        CType::Function(signature) => match b {
            CType::Function(other) => compatible(&signature.result, &other.result)
                && compatible_parameters(&signature.params, &other.params),
            CType::Void
            | CType::Int(_)
            | CType::Pointer(_)
            | CType::Array(_, _)
            | CType::Record(_) => false,
        },
        CType::Record(number) => is_record_of(*number, b),
    }
}

/// Whether two types are compatible, and qualified alike.
#[cycle(compatible)]
#[tactic(auto, unfolding(pw_check_rules::specs::Compatible::compatible_types))]
pub fn compatible(a: &QType, b: &QType) -> bool
    ensures { result ≡ spec.compatible (view_qtype a.now) (view_qtype b.now) }
{
    compatible_types(&a.ty, &b.ty)
        && same_truth(a.constant, b.constant)
        && same_truth(a.volatile, b.volatile)
}

/// Whether there are as many parameters in both lists, compatible one by one; their own qualifiers do not count.
#[cycle(compatible)]
#[tactic(auto, unfolding(pw_check_rules::specs::Compatible::compatible_types))]
pub fn compatible_parameters(a: &[QType], b: &[QType]) -> bool
    ensures { result ≡ spec.compatible_parameters (view_types a.now) (view_types b.now) }
{
    let mut rest = b;
    for q in a {
        let Some((other, behind)) = rest.split_first() else {
            return false;
        };
        if !compatible_types(&q.ty, &other.ty) {
            return false;
        }
        rest = behind;
    }
    rest.is_empty()
}

/// Whether two types are compatible as unqualified ones.
#[tactic(auto, unfolding(pw_check_rules::specs::Compatible::compatible_types))]
pub fn compatible_plainly(a: &QType, b: &QType) -> bool
    ensures { result ≡ spec.compatible_plainly (view_qtype a.now) (view_qtype b.now) }
{
    compatible_types(&a.ty, &b.ty)
}
