//! Parameters (C90 6.5.4.3).

ghost use Rattle.std.specs.Prelude.{◌≡◌, ◌≢◌, ◌≤◌, ◌^◌, [], ◌∷◌, ◌++◌, not, ◌||◌, length, OnOk, OnErr, IfOk, IfErr};
ghost use Rattle.pw_check_state.specs.EntityViews.{view_entity};
ghost use Rattle.pw_check_state.specs.Follows.{Follows, Leads};
ghost use Rattle.pw_check_state.specs.PhraseViews.{view_bindings, view_declared, view_name, view_parameters, view_specified, view_spot};
ghost use Rattle.pw_check_state.specs.StateViews.{view_state};
ghost use Rattle.pw_check_walk.specs.Found.{found};
ghost use Rattle.pw_check_leaves.specs.Parts.{alone_is_void, parameter_type};
ghost use Rattle.pw_check_rules.specs.Kinds.{is_void};
ghost use Rattle.pw_check_rules.specs.Leaves as spec;
ghost use Rattle.pw_check_rules.specs.SpecifierLists as specifiers;
ghost use Rattle.pw_check_rules.specs.States.{LocalObject};
ghost use Rattle.pw_types.specs.Views.{view_qtype, view_type};

use crate::names::name_point;
use pw_check_limits::{spot_of, type_declared, type_within};
use pw_check_state::{
    Bindings, Declared, Entity, Finding, Parameter, Specified, Spot, State, typing,
};
use pw_check_types::{copy_qtype, is_record, is_void, plain};
use pw_check_walk::{CheckFault, CheckKind};
use pw_token::Feature;
use pw_tree::{StorageClass, Word};
use pw_types::{CType, QType};
use pw_value::words::word_of;
use std::alloc::{AllocError, Global};

/// Whether the storage class is `register`.
fn is_register(storage: Option<StorageClass>) -> bool
    ensures { result ≡ specifiers.is_register storage }
{
    match storage {
        Some(StorageClass::Register) => true,
        Some(
            StorageClass::Typedef
            | StorageClass::Extern
            | StorageClass::Static
            | StorageClass::Auto,
        )
        | None => false,
    }
}

/// In a parameter an array is a pointer to its element, and a function a pointer to it.
#[tactic(auto, unfolding(pw_types::specs::Views::view_type), using(pw_types::proofs::ViewLemmas::signature_view))]
fn adjusted(alloc: Global, q: QType) -> Result<QType, AllocError>
    ensures { IfOk result (λ made. view_qtype made ≡ spec.adjusted (view_qtype q)) }
{
    match &q.ty {
        CType::Array(element, _) => {
            let element = copy_qtype(alloc, element)?;
            Ok(plain(CType::Pointer(Box::new(alloc, element)?)))
        }
        CType::Function(_) => Ok(plain(CType::Pointer(Box::new(alloc, q)?))),
        CType::Void | CType::Int(_) | CType::Pointer(_) | CType::Record(_) => Ok(q),
    }
}

/// Whether a parameter has a type, or is `void` alone, which says that there are no parameters.
fn is_lawful_type(sole: bool, specified: &Specified, name: Option<&Word>, ty: &QType) -> bool
    ensures { result ≡ (not (is_void (view_type ty.now.ty)) || spec.says_none sole (view_specified specified.now) (view_name name.entry) (view_qtype ty.now)) }
{
    !is_void(&ty.ty)
        || (sole && name.is_none() && specified.storage.is_none() && !ty.constant && !ty.volatile)
}

/// A parameter has no storage class but `register`.
#[tactic(auto, unfolding(pw_check_walk::specs::Walks::bind, pw_check_walk::specs::Walks::outcome, pw_check_rules::specs::Leaves::parameter_storage))]
pub fn parameter_storage(state: &State, specified: &Specified) -> Result<(), CheckFault>
    ensures follows { Follows (λ u. u) (spec.parameter_storage (view_specified specified.now)) (view_state state.now) result }
    ensures no_memory { IfErr result (λ fault. fault.kind ≢ CheckKind.NoMemory) }
{
    if specified.storage.is_none() || is_register(specified.storage) {
        Ok(())
    } else {
        Err(typing(specified.first))
    }
}

/// What a parameter's name asks, where it has one.
fn named_point(state: &State, name: Option<&Word>) -> Finding
    ensures { result.least ≡ found (spec.named_point (view_state state.now) (view_name name.entry)) }
{
    match name {
        Some(word) => name_point(state, word),
        None => Finding::none(),
    }
}

/// What a parameter asks of its name and its type; the answer is the type that it has as a parameter.
fn parameter_asked(
    alloc: Global,
    state: &State,
    sole: bool,
    spot: &Spot,
    specified: &Specified,
    name: Option<&Word>,
    ty: QType,
) -> Result<QType, CheckFault>
    ensures { Follows view_qtype (parameter_type sole (view_spot spot.now) (view_specified specified.now) (view_name name.entry) (view_qtype ty)) (view_state state.now) result }
{
    let lawful = is_lawful_type(sole, specified, name, &ty);
    let by_value = is_record(&ty.ty);
    let ty = adjusted(alloc, ty)?;
    named_point(state, name)
        .needs(CheckKind::Typing, spot.token, lawful)
        .needs(
            CheckKind::Unsupported(Feature::StructByValue),
            specified.first,
            !by_value,
        )
        .and(type_within(alloc, state.records(), spot.token, &ty)?)
        .end()?;
    Ok(ty)
}

/// The place of the parameter behind these. What 32 bits cannot count is want of memory.
#[tactic(auto, using(pw_check_state::proofs::PlaceLemmas::length_map))]
fn place_behind(parameters: &[Parameter]) -> Result<u32, AllocError>
    ensures place { IfOk result (λ place. place ≡ length (view_parameters parameters.now)) }
    ensures wants { OnErr result (2 ^ 32 ≤ length (view_parameters parameters.now)) }
{
    Ok(word_of(parameters.len())?)
}

/// A parameter's name stands for it, where it has one.
fn enter_parameter<'a>(
    state: &mut State<'a>,
    name: Option<&'a Word>,
    entity: Entity,
) -> Result<(), AllocError>
    ensures { OnOk result (view_state state.new ≡ spec.enter_parameter (view_name name.entry) (view_entity entity) (view_state state.old)) }
{
    match name {
        Some(word) => state.enter(word.text.as_slice(), entity),
        None => Ok(()),
    }
}

/// A parameter of this type, entered under its name.
fn parameter_entered<'a>(
    alloc: Global,
    state: &mut State<'a>,
    specified: &Specified,
    name: Option<&'a Word>,
    ty: QType,
    parameters: Vec<Parameter<'a>>,
) -> Result<Vec<Parameter<'a>>, AllocError>
    ensures parameters { IfOk result (λ ps. view_parameters ps.items ≡ view_parameters parameters.entry.items ++ record { name = view_name name.entry; ty = view_qtype ty } ∷ []) }
    ensures state { OnOk result (view_state state.new ≡ spec.enter_parameter (view_name name.entry) (LocalObject (length (view_parameters parameters.entry.items)) (view_qtype ty) (specifiers.is_register specified.now.storage)) (view_state state.old)) }
{
    let place = place_behind(&parameters)?;
    let own = copy_qtype(alloc, &ty)?;
    let entity = Entity::LocalObject(place, own, is_register(specified.storage));
    enter_parameter(state, name, entity)?;
    let mut parameters = parameters;
    parameters.push(Parameter { name, ty })?;
    Ok(parameters)
}

/// A parameter more (C90 6.5.4.3), by whether it stands alone, its specifiers and its declarator.
pub fn parameter_rule<'a>(
    alloc: Global,
    state: &mut State<'a>,
    sole: bool,
    specified: &Specified,
    declared: Declared<'a>,
    parameters: Vec<Parameter<'a>>,
) -> Result<Vec<Parameter<'a>>, CheckFault>
    ensures { Leads (λ ps. view_parameters ps.items) (spec.parameter_rule sole (view_specified specified.now) (view_declared declared.entry) (view_parameters parameters.entry.items)) (view_state state.old) result (view_state state.new) }
{
    let name = declared.name;
    let spot = spot_of(name, specified.first, specified.tag);
    let ty = type_declared(alloc, state, &spot, specified, declared)?;
    let ty = parameter_asked(alloc, state, sole, &spot, specified, name, ty)?;
    Ok(parameter_entered(alloc, state, specified, name, ty, parameters)?)
}

/// Whether the only parameter is `void`.
fn is_void_alone(parameters: &[Parameter]) -> bool
    ensures { result ≡ alone_is_void (view_parameters parameters.now) }
{
    match parameters {
        [only] => is_void(&only.ty.ty),
        _ => false,
    }
}

/// The parameters, of which `void` alone is none.
#[tactic(auto, using(crate::proofs::ParameterLemmas::void_gone, crate::proofs::ParameterLemmas::others_stay))]
fn without_void<'a>(parameters: Vec<Parameter<'a>>) -> Vec<Parameter<'a>>
    ensures { view_parameters result.items ≡ spec.without_void (view_parameters parameters.entry.items) }
{
    let mut parameters = parameters;
    if is_void_alone(&parameters) {
        parameters.clear();
    }
    parameters
}

/// What the scope of a parameter list has at its end, for a function's body.
#[tactic(auto, unfolding(pw_check_walk::specs::Walks::bind, pw_check_walk::specs::Walks::outcome, pw_check_rules::specs::Leaves::bindings_rule))]
pub fn bindings_rule<'a>(
    alloc: Global,
    state: &State<'a>,
    parameters: Vec<Parameter<'a>>,
) -> Result<Bindings<'a>, CheckFault>
    ensures { Follows view_bindings (spec.bindings_rule (view_parameters parameters.entry.items)) (view_state state.now) result }
{
    Ok(state.bindings_here(alloc, without_void(parameters))?)
}
