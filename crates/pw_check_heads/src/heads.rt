//! What stands before a function's body (C90 6.7.1).

ghost use Rattle.std.specs.Prelude.{◌≡◌, ◌||◌, is_none, is_some, unwrap_or, IfOk};
ghost use Rattle.std.specs.List.{list_all};
ghost use Rattle.pw_check_state.specs.Follows.{Follows, Leads};
ghost use Rattle.pw_check_state.specs.PhraseViews.{view_bindings, view_bound, view_declared, view_derivation, view_derivations, view_parameter, view_parameters, view_specified};
ghost use Rattle.pw_check_state.specs.StateViews.{view_state};
ghost use Rattle.pw_check_walk.specs.Found.{found, found_behind};
ghost use Rattle.pw_check_heads.specs.Parts as part;
ghost use Rattle.pw_check_heads.specs.Views.{view_head};
ghost use Rattle.pw_check_linkage.specs.Views.{view_asking};
ghost use Rattle.pw_check_rules.specs.Functions as spec;
ghost use Rattle.pw_check_rules.specs.Leaves.{is_nil};
ghost use Rattle.pw_check_rules.specs.SpecifierLists as lists;
ghost use Rattle.pw_tree.specs.Views.{view_decls, view_function};

use pw_check_decl_names::{is_extern, is_static};
use pw_check_limits::{built, name_within, spot_of, type_within};
use pw_check_linkage::{
    Asking, declare_linked, define_function, is_internal_by, linkage_point, undefined_yet,
};
use pw_check_state::{
    Bindings, Declared, Derivation, Finding, Parameter, Phrases, Specified, State, fault,
    first_of_declaration,
};
use pw_check_types::copy_qtype;
use pw_check_walk::{CheckFault, CheckKind};
use pw_tree::{Decl, Function, StorageClass, Word};
use pw_types::QType;
use std::alloc::{AllocError, Global};

/// What stands before a function's body: its name, the storage class and the tag of its specifiers, what its parameter
/// list declares, whether its declarator says a function, and its type.
#[derive(Drop)]
pub struct Head<'a> {
    pub word: &'a Word,
    pub storage: Option<StorageClass>,
    pub tag: Option<usize>,
    pub bindings: Bindings<'a>,
    pub ends: bool,
    pub ty: QType,
}

/// Whether a step of a declarator is a function's.
fn is_function_step(step: &Derivation<'_>) -> bool
    ensures { result ≡ part.is_function_step (view_derivation step.now) }
{
    match step {
        Derivation::ToFunction(_) => true,
        Derivation::ToPointer(_, _) | Derivation::ToArray(_) => false,
    }
}

/// Whether the step of a declarator nearest to the name is a function's.
#[tactic(auto, using(crate::proofs::HeadLaws::ends_step, crate::proofs::HeadLaws::ends_none))]
fn ends_in_function(derivations: &[Derivation<'_>]) -> bool
    ensures { result ≡ spec.ends_in_function (view_derivations derivations.now) }
{
    match derivations.last() {
        Some(step) => is_function_step(step),
        None => false,
    }
}

/// What a parameter list declares; without one no parameters, and no names.
fn bindings_of<'a>(alloc: Global, bindings: Option<Bindings<'a>>) -> Bindings<'a>
    ensures { view_bindings result ≡ unwrap_or (view_bound bindings.entry) spec.no_bindings }
{
    match bindings {
        Some(bindings) => bindings,
        None => Bindings {
            parameters: Vec::new(alloc),
            ordinary: Vec::new(alloc),
            tags: Vec::new(alloc),
        },
    }
}

/// What specifiers and a declarator say of a function. The grammar gives it a name; without one it answers want of
/// memory.
fn head_of<'a>(
    alloc: Global,
    state: &State<'a>,
    specified: Specified,
    declared: Declared<'a>,
) -> Result<Head<'a>, CheckFault>
    ensures { Follows view_head (part.head_of (view_specified specified) (view_declared declared.entry)) (view_state state.now) result }
{
    let name = declared.name;
    let Some(word) = name else {
        return Err(fault(CheckKind::NoMemory, specified.first));
    };
    let Declared {
        derivations,
        bindings,
        ..
    } = declared;
    let ends = ends_in_function(&derivations);
    let spot = spot_of(name, specified.first, specified.tag);
    let Specified {
        storage,
        ty,
        tag,
        ..
    } = specified;
    let ty = built(alloc, state, &spot, derivations, ty)?;
    Ok(Head {
        word,
        storage,
        tag,
        bindings: bindings_of(alloc, bindings),
        ends,
        ty,
    })
}

/// What stands before a function's body.
pub fn head_rule<'a, P: Phrases<'a>>(
    alloc: Global,
    phrases: &P,
    state: &mut State<'a>,
    f: &'a Function,
) -> Result<Head<'a>, CheckFault>
    requires { P.can_check phrases.now }
    ensures { Leads view_head (part.head_rule (view_function f.now)) (view_state state.old) result (view_state state.new) }
{
    let first = first_of_declaration(&f.specifiers, &f.declarator);
    let specified = phrases.specifiers(alloc, state, &f.specifiers, first)?;
    let declared = phrases.declarator(alloc, state, &f.declarator)?;
    head_of(alloc, state, specified, declared)
}

/// How a definition asks for linkage (C90 6.1.2.2).
fn definition_asking(storage: Option<StorageClass>) -> Asking
    ensures { view_asking result ≡ part.definition_asking storage }
{
    if is_static(storage) {
        Asking::AsInternal
    } else {
        Asking::AsBefore
    }
}

/// Whether a parameter has a name.
fn has_name(parameter: &Parameter<'_>) -> bool
    ensures { result ≡ is_some (view_parameter parameter.now).name }
{
    match parameter.name {
        Some(_) => true,
        None => false,
    }
}

/// Whether each parameter has a name.
fn are_named(parameters: &[Parameter<'_>]) -> bool
    ensures { result ≡ list_all (λ p. is_some p.name) (view_parameters parameters.now) }
{
    for parameter in parameters {
        if !has_name(parameter) {
            return false;
        }
    }
    true
}

/// Whether a definition may have this storage class (C90 6.7.1).
fn is_lawful(storage: Option<StorageClass>) -> bool
    ensures { result ≡ (is_none storage || lists.is_static storage || lists.is_extern storage) }
{
    storage.is_none() || is_static(storage) || is_extern(storage)
}

/// Whether there are no declarations.
#[tactic(auto, using(crate::proofs::HeadLaws::nil_none, crate::proofs::HeadLaws::nil_some))]
fn is_nothing(declarations: &[Decl]) -> bool
    ensures { result ≡ is_nil (view_decls declarations.now) }
{
    match declarations.first() {
        Some(_) => false,
        None => true,
    }
}

/// Constraints more: the declarator says a function, with a lawful storage class, names for its parameters, and no
/// declarations of them (C90 6.7.1).
fn head_asks(so_far: Finding, head: &Head<'_>, declarations: &[Decl]) -> Finding
    ensures { result.least ≡ found_behind so_far.least (part.head_asks (view_head head.now) (view_decls declarations.now)) }
{
    let token = head.word.token;
    let lawful = is_lawful(head.storage);
    let named = are_named(&head.bindings.parameters);
    let nothing = is_nothing(declarations);
    so_far
        .needs(CheckKind::Typing, token, head.ends)
        .needs(CheckKind::Typing, token, lawful)
        .needs(CheckKind::Typing, token, named)
        .needs(CheckKind::Typing, token, nothing)
}

/// What a definition asks of the function's name.
fn head_point(
    alloc: Global,
    state: &State<'_>,
    head: &Head<'_>,
    declarations: &[Decl],
) -> Result<Finding, AllocError>
    ensures { IfOk result (λ finding. finding.least ≡ found (part.head_point (view_state state.now) (view_head head.now) (view_decls declarations.now))) }
{
    let word = head.word;
    let asking = definition_asking(head.storage);
    let internal = is_internal_by(state, &word.text, asking);
    let linked = linkage_point(state, &word.text, word.token, internal, &head.ty);
    let undefined = undefined_yet(linked, state, &word.text, word.token);
    let asked = head_asks(undefined, head, declarations);
    let named = name_within(asked, word.token, &word.text);
    let limits = type_within(alloc, state.records(), word.token, &head.ty)?;
    Ok(named.and(limits))
}

/// What a definition asks is met.
pub fn head_meets(
    alloc: Global,
    state: &State<'_>,
    head: &Head<'_>,
    declarations: &[Decl],
) -> Result<(), CheckFault>
    ensures { Follows (λ u. u) (part.head_meets (view_head head.now) (view_decls declarations.now)) (view_state state.now) result }
{
    head_point(alloc, state, head, declarations)?.end()
}

/// The declaration of the function, and its definition. The answer is its place among the names with linkage.
pub fn head_declared<'a>(
    alloc: Global,
    state: &mut State<'a>,
    head: &Head<'a>,
) -> Result<u32, CheckFault>
    ensures { Leads (λ n. n) (part.head_declared (view_head head.now)) (view_state state.old) result (view_state state.new) }
{
    let asking = definition_asking(head.storage);
    let ty = copy_qtype(alloc, &head.ty)?;
    let place = declare_linked(alloc, state, head.word, head.tag, asking, ty)?;
    define_function(state, place);
    Ok(place)
}
