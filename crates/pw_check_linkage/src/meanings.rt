//! What a name may be that is declared (C90 6.1.2.2, 6.5, 6.7).

ghost use Rattle.std.specs.Prelude.{◌≡◌, [], ◌∷◌, true, false, option_map};
ghost use Rattle.std.specs.Option.{option_copied, option_map_or};
ghost use Rattle.pw_check_state.specs.EntityViews.{view_linked};
ghost use Rattle.pw_check_state.specs.StateViews.{view_state};
ghost use Rattle.pw_check_walk.specs.Found.{found, found_behind};
ghost use Rattle.pw_check_rules.specs.Compatible as compatible_spec;
ghost use Rattle.pw_check_rules.specs.Linkage as spec;
ghost use Rattle.pw_check_rules.specs.States as states;
ghost use Rattle.pw_types.specs.Views.{view_qtype};

use pw_check_state::{Entity, Finding, LinkedName, State};
use pw_check_types::compatible;
use pw_check_walk::CheckKind;
use pw_types::QType;

/// A name without linkage is declared once in its scope, as typedef names, enumeration constants, parameters and
/// locals are.
pub fn fresh_name(finding: Finding, state: &State, name: &[u8], token: usize) -> Finding
    ensures { result.least ≡ found_behind finding.least (spec.fresh_name (view_state state.now) name.now token ∷ []) }
{
    let fresh = state.entry_here(name).is_none();
    finding.needs(CheckKind::Redeclared, token, fresh)
}

/// What was declared of a name with linkage.
pub(crate) fn linked_before<'s, 'a>(state: &'s State<'a>, name: &[u8]) -> Option<&'s LinkedName<'a>>
    ensures { option_map view_linked (option_copied result) ≡ spec.linked_before (view_state state.now) name.now }
{
    let place = state.place_of_linked(name)?;
    state.linked_at(place)
}

// Whether a name has linkage, if it is declared in the scope that is read.
fn is_linked_here(state: &State, name: &[u8]) -> bool
    ensures { result ≡ option_map_or spec.is_linked (states.entity_here (view_state state.now) name.now) true }
{
    match state.entity_here(name) {
        None | Some(Entity::Linked(_, _)) => true,
        Some(
            Entity::TypeName(_)
            | Entity::EnumerationConstant(_)
            | Entity::LocalObject(_, _, _)
            | Entity::StaticObject(_, _),
        ) => false,
    }
}

// Whether a name keeps the linkage that it has, if it has one.
fn keeps_linkage(before: Option<&LinkedName>, internal: bool) -> bool
    ensures { result ≡ option_map_or (spec.same_linkage internal) (option_map view_linked (option_copied before.entry)) true }
{
    match before {
        Some(linked) => linked.internal == internal,
        None => true,
    }
}

// Whether the type of a name is compatible with the one that it has, if it has one.
fn keeps_type(before: Option<&LinkedName>, ty: &QType) -> bool
    ensures { result ≡ option_map_or (λ l. compatible_spec.compatible l.ty (view_qtype ty.now)) (option_map view_linked (option_copied before.entry)) true }
{
    match before {
        Some(linked) => compatible(&linked.ty, ty),
        None => true,
    }
}

/// In one scope a name with linkage may be declared again, with a compatible type and the same linkage; so between
/// scopes.
pub fn linkage_point(
    state: &State,
    name: &[u8],
    token: usize,
    internal: bool,
    ty: &QType,
) -> Finding
    ensures { result.least ≡ found (spec.linkage_point (view_state state.now) name.now token internal (view_qtype ty.now)) }
{
    let before = linked_before(state, name);
    let one_meaning = is_linked_here(state, name);
    let one_linkage = keeps_linkage(before, internal);
    let one_type = keeps_type(before, ty);
    Finding::none()
        .needs(CheckKind::Redeclared, token, one_meaning)
        .needs(CheckKind::Redeclared, token, one_linkage)
        .needs(CheckKind::Redeclared, token, one_type)
}

// Whether a name with linkage is defined.
fn is_defined(before: Option<&LinkedName>) -> bool
    ensures { result ≡ option_map_or (λ l. l.defined) (option_map view_linked (option_copied before.entry)) false }
{
    match before {
        Some(linked) => linked.defined,
        None => false,
    }
}

/// There is one definition of a name with linkage (C90 6.7).
pub fn undefined_yet(finding: Finding, state: &State, name: &[u8], token: usize) -> Finding
    ensures { result.least ≡ found_behind finding.least (spec.undefined_yet (view_state state.now) name.now token ∷ []) }
{
    let defined = is_defined(linked_before(state, name));
    finding.needs(CheckKind::Redeclared, token, !defined)
}

/// The type that an initialiser gives an object is compatible with the one that its name has by all its declarations
/// (C90 6.5).
pub fn fitting(state: &State, place: u32, token: usize, ty: &QType) -> Finding
    ensures { result.least ≡ found (spec.fitting (view_state state.now) place token (view_qtype ty.now) ∷ []) }
{
    let fits = keeps_type(state.linked_at(place), ty);
    Finding::none().needs(CheckKind::Redeclared, token, fits)
}
