//! Objects: whether a type has a size, and what of it is const or volatile (C90 6.1.2.5, 6.5.3).

ghost use Rattle.std.specs.Prelude.{◌≡◌};
ghost use Rattle.std.specs.List.{list_any};
ghost use Rattle.pw_check_rules.specs.Kinds as spec;
ghost use Rattle.pw_types.specs.TypeTrees as tree;
ghost use Rattle.pw_types.specs.Views.{view_type, view_qtype, view_members};

use pw_types::{CType, Member, QType, Types, layout};
use pw_value::limits::DEPTH_LIMIT;

/// Whether a type has a size.
#[tactic(auto, using(crate::proofs::SizeLemmas::complete_by_layout))]
pub fn is_complete(types: &Types, ty: &CType) -> bool
    ensures { result ≡ spec.is_complete types.now (view_type ty.now) }
{
    layout(types, ty).is_some()
}

/// The innermost element of an array; another type is its own.
#[tactic(auto, unfolding(pw_types::specs::Views::view_type, pw_check_rules::specs::Kinds::innermost), using(pw_types::proofs::ViewLemmas::signature_view))]
pub fn innermost(ty: &CType) -> &CType
    ensures { view_type result.now ≡ spec.innermost (view_type ty.now) }
{
    match ty {
        CType::Array(element, _) => innermost(&element.ty),
        CType::Void | CType::Int(_) | CType::Pointer(_) | CType::Function(_) | CType::Record(_) =>
            ty,
    }
}

/// Whether an object of a type is const; of an array, whether its elements are.
#[tactic(auto, unfolding(pw_types::specs::Views::view_type, pw_check_rules::specs::Kinds::is_const_object), using(pw_types::proofs::ViewLemmas::signature_view))]
pub fn is_const_object(q: &QType) -> bool
    ensures { result ≡ spec.is_const_object (view_qtype q.now) }
{
    match &q.ty {
        CType::Array(element, _) => is_const_object(element),
        CType::Void | CType::Int(_) | CType::Pointer(_) | CType::Function(_) | CType::Record(_) =>
            q.constant,
    }
}

/// Whether an object of a type is volatile; of an array, whether its elements are.
#[tactic(auto, unfolding(pw_types::specs::Views::view_type, pw_check_rules::specs::Kinds::is_volatile_object), using(pw_types::proofs::ViewLemmas::signature_view))]
pub fn is_volatile_object(q: &QType) -> bool
    ensures { result ≡ spec.is_volatile_object (view_qtype q.now) }
{
    match &q.ty {
        CType::Array(element, _) => is_volatile_object(element),
        CType::Void | CType::Int(_) | CType::Pointer(_) | CType::Function(_) | CType::Record(_) =>
            q.volatile,
    }
}

/// The members of a structure or union that is defined; none of another type.
#[tactic(auto, unfolding(pw_types::specs::Views::view_type), using(pw_types::proofs::ViewLemmas::signature_view))]
fn members_of<'t>(types: &'t Types, ty: &CType) -> &'t [Member]
    ensures { view_members result.now ≡ spec.members_of types.now (view_type ty.now) }
{
    match ty {
        CType::Record(number) => members_at(types, *number),
        CType::Void | CType::Int(_) | CType::Pointer(_) | CType::Array(_, _) | CType::Function(_) =>
            &[],
    }
}

/// The members of the structure or union of a number.
fn members_at(types: &Types, number: u32) -> &[Member]
    ensures { view_members result.now ≡ spec.members_of types.now (tree.Record number) }
{
    match types.record(number) {
        Some(record) => match &record.content {
            Some(content) => content.members.as_slice(),
            None => &[],
        },
        None => &[],
    }
}

/// Whether an object of a type is const, or one within it: so many structures and unions inward at most (C90 6.2.2.1).
#[cycle(holds_const)]
#[tactic(auto, unfolding(pw_check_rules::specs::Kinds::holds_const))]
pub fn holds_const(deep: u64, types: &Types, q: &QType) -> bool
    ensures { result ≡ spec.holds_const deep types.now (view_qtype q.now) }
{
    match deep.checked_sub(1) {
        Some(inward) => is_const_object(q)
            || any_holds_const(inward, types, members_of(types, innermost(&q.ty))),
        None => false,
    }
}

/// Whether an object of the type of one of the members is const, or one within it.
#[cycle(holds_const)]
fn any_holds_const(deep: u64, types: &Types, members: &[Member]) -> bool
    ensures { result ≡ list_any (λ m. spec.holds_const deep types.now m.ty) (view_members members.now) }
{
    for member in members {
        if holds_const(deep, types, &member.ty) {
            return true;
        }
    }
    false
}

/// Whether no part of an object of a type is const.
pub fn is_free_of_const(types: &Types, q: &QType) -> bool
    ensures { result ≡ spec.is_free_of_const types.now (view_qtype q.now) }
{
    !holds_const(DEPTH_LIMIT + 1, types, q)
}
