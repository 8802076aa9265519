//! Typedef names and type names (C90 6.5.5, 6.5.6).

ghost use Rattle.std.specs.Prelude.{◌≡◌, option_map, IfOk};
ghost use Rattle.pw_check_state.specs.EntityViews.{view_entity};
ghost use Rattle.pw_check_state.specs.Follows.{Follows};
ghost use Rattle.pw_check_state.specs.PhraseViews.{view_declared, view_specified};
ghost use Rattle.pw_check_state.specs.StateViews.{view_state};
ghost use Rattle.pw_check_walk.specs.Found.{found};
ghost use Rattle.pw_check_rules.specs.Kinds as kinds;
ghost use Rattle.pw_check_rules.specs.Leaves as spec;
ghost use Rattle.pw_check_rules.specs.Phrases as phrases;
ghost use Rattle.pw_tree.specs.Views.{view_word};
ghost use Rattle.pw_types.specs.Views.{view_qtype};

use pw_check_limits::{name_within, spot_of, type_declared, type_within};
use pw_check_linkage::fresh_name;
use pw_check_state::{Declared, Entity, Finding, Specified, State, fault};
use pw_check_types::{copy_qtype, plain};
use pw_check_walk::{CheckFault, CheckKind};
use pw_tree::Word;
use pw_types::{CType, IntKind, QType};
use std::alloc::{AllocError, Global};

/// The type `int`, without qualifiers.
#[tactic(auto, unfolding(pw_types::specs::Views::view_type))]
pub fn int_type() -> QType
    ensures { view_qtype result ≡ kinds.int_type }
{
    plain(CType::Int(IntKind::Int))
}

/// What a name without linkage asks: that it is declared once in its scope, and keeps the limit on names.
pub fn name_point(state: &State, word: &Word) -> Finding
    ensures { result.least ≡ found (spec.name_point (view_state state.now) (view_word word.now)) }
{
    let name = word.text.as_slice();
    let found = fresh_name(Finding::none(), state, name, word.token);
    name_within(found, word.token, name)
}

/// The type that a typedef name names.
fn typedef_type(alloc: Global, entity: &Entity) -> Result<Option<QType>, AllocError>
    ensures { IfOk result (λ q. option_map view_qtype q ≡ phrases.typedef_type (view_entity entity.now)) }
{
    match entity {
        Entity::TypeName(ty) => Ok(Some(copy_qtype(alloc, ty)?)),
        Entity::EnumerationConstant(_)
        | Entity::LocalObject(_, _, _)
        | Entity::StaticObject(_, _)
        | Entity::Linked(_, _) => Ok(None),
    }
}

/// The type that a typedef name names (C90 6.5.6).
#[tactic(auto, unfolding(pw_check_walk::specs::Walks::bind, pw_check_walk::specs::Walks::outcome, pw_check_rules::specs::Phrases::typedef_rule))]
pub fn typedef_rule(alloc: Global, state: &State, word: &Word) -> Result<QType, CheckFault>
    ensures { Follows view_qtype (phrases.typedef_rule (view_word word.now)) (view_state state.now) result }
{
    let unknown = fault(CheckKind::UnknownName, word.token);
    let Some(entity) = state.entity_of(word.text.as_slice()) else {
        return Err(unknown);
    };
    match typedef_type(alloc, entity)? {
        Some(ty) => Ok(ty),
        None => Err(unknown),
    }
}

/// The type that a type name names (C90 6.5.5), by its specifiers and its declarator.
pub fn named_type<'a>(
    alloc: Global,
    state: &State<'a>,
    specified: &Specified,
    declared: Declared<'a>,
) -> Result<QType, CheckFault>
    ensures { Follows view_qtype (spec.named_type (view_specified specified.now) (view_declared declared.entry)) (view_state state.now) result }
{
    let spot = spot_of(None, specified.first, specified.tag);
    let ty = type_declared(alloc, state, &spot, specified, declared)?;
    type_within(alloc, state.records(), specified.first, &ty)?.end()?;
    Ok(ty)
}
