//! Members of structures and unions: what their declarations say (C90 6.5.2.1).

ghost use Rattle.std.specs.Prelude.{◌≡◌, length, IfOk, OnOk};
ghost use Rattle.pw_check_state.specs.Follows.{Follows};
ghost use Rattle.pw_check_state.specs.PhraseViews.{view_declared, view_name, view_specified, view_spot};
ghost use Rattle.pw_check_state.specs.StateViews.{view_state};
ghost use Rattle.pw_check_walk.specs.Found.{found};
ghost use Rattle.pw_check_records.specs.Parts.{member_asks, member_behind, member_point};
ghost use Rattle.pw_check_records.specs.Views.{view_member_list};
ghost use Rattle.pw_check_rules.specs.Leaves as spec;
ghost use Rattle.pw_types.specs.Views.{view_qtype};
ghost use Rattle.pw_value.specs.Names.{IsNameLength};

use crate::members::MemberList;
use pw_check_limits::{completed, name_within, spot_of, type_declared, type_within};
use pw_check_state::{Declared, Finding, Specified, Spot, State};
use pw_check_types::is_function;
use pw_check_walk::{CheckFault, CheckKind};
use pw_tree::Word;
use pw_types::{QType, Types};
use std::alloc::{AllocError, Global};

// The name of a declarator, without bytes where it has none.
fn name_text<'a>(name: Option<&'a Word>) -> &'a [u8]
    ensures { result.now ≡ spec.name_text (view_name name.entry) }
{
    match name {
        Some(word) => word.text.as_slice(),
        None => &[],
    }
}

// What is found of a member's name and its type.
fn member_found(
    alloc: Global,
    types: &Types,
    spot: &Spot,
    name: &[u8],
    ty: &QType,
    members: &MemberList,
) -> Result<Finding, AllocError>
    ensures { IfOk result (λ finding. finding.least ≡ found (member_point types.now (view_spot spot.now) name.now (view_qtype ty.now) (view_member_list members.now))) }
{
    let here = Finding::none()
        .needs(CheckKind::Redeclared, spot.token, !members.contains(name))
        .needs(CheckKind::Typing, spot.token, !is_function(&ty.ty))
        .and(completed(types, spot, CheckKind::Typing, &ty.ty));
    let named = name_within(here, spot.token, name);
    Ok(named.and(type_within(alloc, types, spot.token, ty)?))
}

// What a member asks of its name and its type.
fn member_met(
    alloc: Global,
    state: &State,
    spot: &Spot,
    name: &[u8],
    ty: &QType,
    members: &MemberList,
) -> Result<(), CheckFault>
    ensures follows { Follows (λ u. u) (member_asks (view_spot spot.now) name.now (view_qtype ty.now) (view_member_list members.now)) (view_state state.now) result }
    ensures named { OnOk result (IsNameLength (length name.now)) }
{
    member_found(alloc, state.records(), spot, name, ty, members)?.end()
}

// A member more, by its name and its type.
fn member_added<'a>(
    alloc: Global,
    state: &State<'a>,
    spot: &Spot,
    name: &'a [u8],
    ty: QType,
    members: MemberList<'a>,
) -> Result<MemberList<'a>, CheckFault>
    ensures { Follows view_member_list (member_behind (view_spot spot.now) name.now (view_qtype ty) (view_member_list members.entry)) (view_state state.now) result }
{
    member_met(alloc, state, spot, name, &ty, &members)?;
    let mut members = members;
    members.push(alloc, name, ty)?;
    Ok(members)
}

/// A member more (C90 6.5.2.1): its name once, and a complete type.
pub fn member_rule<'a>(
    alloc: Global,
    state: &State<'a>,
    specified: &Specified,
    declared: Declared<'a>,
    members: MemberList<'a>,
) -> Result<MemberList<'a>, CheckFault>
    ensures { Follows view_member_list (spec.member_rule (view_specified specified.now) (view_declared declared.entry) (view_member_list members.entry)) (view_state state.now) result }
{
    let name = declared.name;
    let spot = spot_of(name, specified.first, specified.tag);
    let ty = type_declared(alloc, state, &spot, specified, declared)?;
    member_added(alloc, state, &spot, name_text(name), ty, members)
}
