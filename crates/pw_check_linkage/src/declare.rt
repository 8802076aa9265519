//! Declarations of names with linkage (C90 6.1.2.2, 6.1.2.6).

ghost use Rattle.std.specs.Prelude.{◌≡◌, ◌≤◌, ◌^◌, option_map, unwrap_or, OnOk, OnErr, IfOk};
ghost use Rattle.std.specs.Option.{option_copied};
ghost use Rattle.pw_check_state.specs.EntityViews.{view_entity, view_linked};
ghost use Rattle.pw_check_state.specs.Follows.{Leads};
ghost use Rattle.pw_check_state.specs.StateViews.{view_state};
ghost use Rattle.pw_check_linkage.specs.Views.{view_asking};
ghost use Rattle.pw_check_rules.specs.Compatible as compatible;
ghost use Rattle.pw_check_rules.specs.Linkage as spec;
ghost use Rattle.pw_check_rules.specs.States as states;
ghost use Rattle.pw_types.specs.Views.{view_qtype};

use crate::meanings::linked_before;
use pw_check_state::{Entity, LinkedName, State};
use pw_check_types::{composite, copy_qtype};
use pw_check_walk::CheckFault;
use pw_tree::Word;
use pw_types::QType;
use pw_value::words::word_of;
use std::alloc::{AllocError, Global};

/// How a declaration asks for linkage: `static` at file scope; as an earlier declaration has it, where there is a
/// visible one; external.
#[derive(Clone, Copy)]
pub enum Asking {
    /// `static` at file scope: internal linkage.
    AsInternal,
    /// The linkage of an earlier visible declaration; external where there is none.
    AsBefore,
    /// External linkage.
    AsExternal,
}

// The linkage of the declaration of a name that is visible: whether it is internal.
fn visible_linkage(state: &State, name: &[u8]) -> Option<bool>
    ensures { result ≡ spec.visible_linkage (view_state state.now) name.now }
{
    match state.entity_of(name)? {
        Entity::Linked(place, _) => Some(state.linked_at(*place)?.internal),
        Entity::TypeName(_)
        | Entity::EnumerationConstant(_)
        | Entity::LocalObject(_, _, _)
        | Entity::StaticObject(_, _) => None,
    }
}

/// Whether a declaration gives internal linkage.
pub fn is_internal_by(state: &State, name: &[u8], asking: Asking) -> bool
    ensures { result ≡ spec.is_internal_by (view_state state.now) name.now (view_asking asking) }
{
    match asking {
        Asking::AsInternal => true,
        Asking::AsBefore => visible_linkage(state, name).unwrap_or(false),
        Asking::AsExternal => false,
    }
}

// The place among the names with linkage that a name has or gets. What 32 bits cannot count is want of memory.
fn place_for(state: &State, name: &[u8]) -> Result<u32, AllocError>
    ensures place { IfOk result (λ place. place ≡ spec.place_for (view_state state.now) name.now) }
    ensures wants { OnErr result (2 ^ 32 ≤ spec.place_for (view_state state.now) name.now) }
{
    match state.place_of_linked(name) {
        Some(place) => Ok(place),
        None => Ok(word_of(state.linked().len())?),
    }
}

// A name that was not declared before, with what this declaration says of it.
fn linked_anew<'a>(
    alloc: Global,
    name: &'a [u8],
    internal: bool,
    ty: &QType,
    token: usize,
    tag: Option<usize>,
) -> Result<LinkedName<'a>, AllocError>
    ensures { IfOk result (λ l. view_linked l ≡ spec.linked_anew name.now internal (view_qtype ty.now) token tag) }
{
    Ok(LinkedName {
        name,
        internal,
        ty: copy_qtype(alloc, ty)?,
        tentative: false,
        defined: false,
        items: Vec::new(alloc),
        token,
        tag,
    })
}

// The type that a name with linkage has with this declaration more, if there is one before.
fn type_again(
    alloc: Global,
    state: &State,
    name: &[u8],
    ty: &QType,
) -> Result<Option<QType>, AllocError>
    ensures { IfOk result (λ made. option_map view_qtype made ≡ option_map (λ l. compatible.composite l.ty (view_qtype ty.now)) (spec.linked_before (view_state state.now) name.now)) }
{
    match linked_before(state, name) {
        Some(linked) => Ok(Some(composite(alloc, &linked.ty, ty)?)),
        None => Ok(None),
    }
}

/// What a declaration makes of a name with linkage: a name more, or the composite of its types.
pub fn note_linked<'a>(
    alloc: Global,
    state: &mut State<'a>,
    name: &'a [u8],
    internal: bool,
    ty: &QType,
    token: usize,
    tag: Option<usize>,
) -> Result<(), AllocError>
    ensures { OnOk result (view_state state.new ≡ spec.note_linked name.now internal (view_qtype ty.now) token tag (view_state state.old)) }
{
    match type_again(alloc, state, name, ty)? {
        Some(both) => {
            let place = place_for(state, name)?;
            state.set_linked_type(place, both);
            Ok(())
        }
        None => {
            let linked = linked_anew(alloc, name, internal, ty, token, tag)?;
            state.add_linked(linked)
        }
    }
}

// In its scope a name has the composite of the types that it is declared with there (6.1.2.6).
fn type_here(alloc: Global, entity: Option<&Entity>, ty: QType) -> Result<QType, AllocError>
    ensures { IfOk result (λ made. view_qtype made ≡ spec.type_here (view_qtype ty) (unwrap_or (option_map view_entity (option_copied entity.entry)) (states.TypeName (view_qtype ty)))) }
{
    match entity {
        Some(Entity::Linked(_, before)) => composite(alloc, before, &ty),
        None
        | Some(
            Entity::TypeName(_)
            | Entity::EnumerationConstant(_)
            | Entity::LocalObject(_, _, _)
            | Entity::StaticObject(_, _),
        ) => Ok(ty),
    }
}

/// A name stands for what has linkage at this place, in the scope that is read.
pub fn note_here<'a>(
    alloc: Global,
    state: &mut State<'a>,
    name: &'a [u8],
    place: u32,
    ty: QType,
) -> Result<(), AllocError>
    ensures { OnOk result (view_state state.new ≡ spec.note_here name.now place (view_qtype ty) (view_state state.old)) }
{
    let Some(entry) = state.entry_here(name) else {
        return state.enter(name, Entity::Linked(place, ty));
    };
    let ty = type_here(alloc, state.entity_here(name), ty)?;
    state.put_entity(entry.place, Entity::Linked(place, ty));
    Ok(())
}

/// A declaration of a name with linkage, whose tag's token tells where the declaration brought one in; the answer is
/// the name's place among those with linkage.
#[tactic(auto, unfolding(pw_check_walk::specs::Walks::bind, pw_check_walk::specs::Walks::outcome, pw_check_rules::specs::Linkage::declare_linked))]
pub fn declare_linked<'a>(
    alloc: Global,
    state: &mut State<'a>,
    word: &'a Word,
    tag: Option<usize>,
    asking: Asking,
    ty: QType,
) -> Result<u32, CheckFault>
    ensures { Leads (λ place. place) (spec.declare_linked word.now.text.items word.now.token tag (view_asking asking) (view_qtype ty)) (view_state state.old) result (view_state state.new) }
{
    let name = word.text.as_slice();
    let place = place_for(state, name)?;
    let internal = is_internal_by(state, name, asking);
    note_linked(alloc, state, name, internal, &ty, word.token, tag)?;
    note_here(alloc, state, name, place, ty)?;
    Ok(place)
}
