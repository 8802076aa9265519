//! What types are (C90 6.1.2.5, 6.2.1).

ghost use Rattle.std.specs.Prelude.{◌≡◌};
ghost use Rattle.pw_check_rules.specs.Kinds as spec;
ghost use Rattle.pw_types.specs.TypeTrees as tree;
ghost use Rattle.pw_types.specs.Views.{view_type, view_qtype, view_types};

use pw_types::{CType, IntKind, QType};

/// A type without qualifiers.
pub fn plain(ty: CType) -> QType
    ensures { view_qtype result ≡ spec.plain (view_type ty) }
{
    QType {
        ty,
        constant: false,
        volatile: false,
    }
}

/// An integer type, of another type `int`.
#[tactic(auto, unfolding(pw_types::specs::Views::view_type), using(pw_types::proofs::ViewLemmas::signature_view))]
pub fn kind_in(ty: &CType) -> IntKind
    ensures { result ≡ spec.kind_in (view_type ty.now) }
{
    match ty {
        CType::Int(kind) => *kind,
        CType::Void
        | CType::Pointer(_)
        | CType::Array(_, _)
        | CType::Function(_)
        | CType::Record(_) => IntKind::Int,
    }
}

/// The place of an integer type in the list of them.
fn number_of_kind(kind: IntKind) -> u8
    ensures { result ≡ spec.number_of_kind kind }
{
    match kind {
        IntKind::Char => 0,
        IntKind::SChar => 1,
        IntKind::UChar => 2,
        IntKind::Short => 3,
        IntKind::UShort => 4,
        IntKind::Int => 5,
        IntKind::UInt => 6,
        IntKind::Long => 7,
        IntKind::ULong => 8,
    }
}

/// Whether two integer types are one.
pub fn same_kind(a: IntKind, b: IntKind) -> bool
    ensures { result ≡ spec.same_kind a b }
{
    number_of_kind(a) == number_of_kind(b)
}

/// Whether a type is this integer type.
#[tactic(auto, unfolding(pw_types::specs::Views::view_type, pw_check_rules::specs::Kinds::same_type), using(pw_types::proofs::ViewLemmas::signature_view))]
pub fn is_kind(kind: IntKind, ty: &CType) -> bool
    ensures { result ≡ spec.same_type (tree.Int kind) (view_type ty.now) }
{
    match ty {
        CType::Int(other) => same_kind(kind, *other),
        CType::Void
        | CType::Pointer(_)
        | CType::Array(_, _)
        | CType::Function(_)
        | CType::Record(_) => false,
    }
}

/// Whether a type is the structure or union of this number.
#[tactic(auto, unfolding(pw_types::specs::Views::view_type, pw_check_rules::specs::Kinds::same_type), using(pw_types::proofs::ViewLemmas::signature_view))]
pub fn is_record_of(number: u32, ty: &CType) -> bool
    ensures { result ≡ spec.same_type (tree.Record number) (view_type ty.now) }
{
    match ty {
        CType::Record(other) => number == *other,
        CType::Void | CType::Int(_) | CType::Pointer(_) | CType::Array(_, _) | CType::Function(_) =>
            false,
    }
}

/// Whether an integer type is one of the three character types.
pub fn is_character_kind(kind: IntKind) -> bool
    ensures { result ≡ spec.is_character_kind kind }
{
    match kind {
        IntKind::Char | IntKind::SChar | IntKind::UChar => true,
        IntKind::Short
        | IntKind::UShort
        | IntKind::Int
        | IntKind::UInt
        | IntKind::Long
        | IntKind::ULong => false,
    }
}

/// Whether a type is an array of `char`, `signed char` or `unsigned char`, which a string may initialise (C90 6.5.7).
#[tactic(auto, unfolding(pw_types::specs::Views::view_type), using(pw_types::proofs::ViewLemmas::signature_view))]
pub fn is_character_array(ty: &CType) -> bool
    ensures { result ≡ spec.is_character_array (view_type ty.now) }
{
    match ty {
        CType::Array(element, _) => match &element.ty {
            CType::Int(kind) => is_character_kind(*kind),
            CType::Void
            | CType::Pointer(_)
            | CType::Array(_, _)
            | CType::Function(_)
            | CType::Record(_) => false,
        },
        CType::Void | CType::Int(_) | CType::Pointer(_) | CType::Function(_) | CType::Record(_) =>
            false,
    }
}

/// Whether a type is an array whose length is not known.
#[tactic(auto, unfolding(pw_types::specs::Views::view_type), using(pw_types::proofs::ViewLemmas::signature_view))]
pub fn is_open_array(ty: &CType) -> bool
    ensures { result ≡ spec.is_open_array (view_type ty.now) }
{
    match ty {
        CType::Array(_, None) => true,
        CType::Array(_, Some(_))
        | CType::Void
        | CType::Int(_)
        | CType::Pointer(_)
        | CType::Function(_)
        | CType::Record(_) => false,
    }
}

/// How many types there are.
#[tactic(auto, using(crate::proofs::TypeLists::count_view))]
pub fn count_of_types(types: &[QType]) -> usize
    ensures { result ≡ spec.count_of_types (view_types types.now) }
{
    types.len()
}
