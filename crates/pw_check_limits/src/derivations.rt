//! Declarators: what they make of a type, from the type of the specifiers outward (C90 6.5.4).

ghost use Rattle.std.specs.Prelude.{◌≡◌, ◌∷◌, [], count_by, length, IfOk};
ghost use Rattle.pw_check_state.specs.Follows.{Follows};
ghost use Rattle.pw_check_state.specs.PhraseViews.{view_declared, view_derivation, view_derivations, view_spot};
ghost use Rattle.pw_check_state.specs.StateViews.{view_state};
ghost use Rattle.pw_check_walk.specs.Causes.{keeps};
ghost use Rattle.pw_check_walk.specs.Found.{found};
ghost use Rattle.pw_check_walk.specs.declared.constraints.Which.TheVariants.{TypeDepth};
ghost use Rattle.pw_check_rules.specs.Derivations as spec;
ghost use Rattle.pw_types.specs.Views.{view_qtype};

use crate::completeness::completed;
use pw_check_state::{Declared, Derivation, Specified, Spot, State};
use pw_check_types::{copy_qtype, is_array, is_function, is_record, plain};
use pw_check_walk::{CheckFault, CheckKind, Finding, Which};
use pw_token::Feature;
use pw_tree::Qualifier;
use pw_types::{CType, QType, Signature, Types};
use std::alloc::{AllocError, Global};

/// The most steps of one declarator that a type is built of: what goes down a deeper type would take too much of the
/// stack. The depth that a type may have is far below.
pub const DERIVATION_LIMIT: u64 = 4096;

/// The limit of a declarator is the one that its definition speaks of.
pub fn limit_of_a_declarator()
    ensures { DERIVATION_LIMIT ≡ spec.derivation_limit }
{}

/// How often `const` stands among qualifiers.
fn constants(qualifiers: &[Qualifier]) -> usize
    ensures { result ≡ count_by spec.is_const_word qualifiers.now }
{
    qualifiers
        .iter()
        .filter(|qualifier| **qualifier == Qualifier::Const)
        .count()
}

/// How often `volatile` stands among qualifiers.
fn volatiles(qualifiers: &[Qualifier]) -> usize
    ensures { result ≡ count_by spec.is_volatile_word qualifiers.now }
{
    qualifiers
        .iter()
        .filter(|qualifier| **qualifier == Qualifier::Volatile)
        .count()
}

/// What is found of one step: no qualifier twice (C90 6.5.4.1); elements of a complete type (6.5.4.2); a result that is
/// no array and no function, and no structure or union (6.5.4.3).
pub fn step_point(types: &Types, spot: &Spot, step: &Derivation, q: &QType) -> Finding
    ensures { result.least ≡ found (spec.step_point types.now (view_spot spot.now) (view_derivation step.now) (view_qtype q.now)) }
{
    match step {
        Derivation::ToPointer(token, qualifiers) => Finding::none().needs(
            CheckKind::Typing,
            *token,
            constants(qualifiers) <= 1 && volatiles(qualifiers) <= 1,
        ),
        Derivation::ToArray(_) => Finding::none()
            .needs(CheckKind::Typing, spot.token, !is_function(&q.ty))
            .and(completed(types, spot, CheckKind::Typing, &q.ty)),
        Derivation::ToFunction(_) => Finding::none()
            .needs(
                CheckKind::Typing,
                spot.token,
                !(is_function(&q.ty) || is_array(&q.ty)),
            )
            .needs(
                CheckKind::Unsupported(Feature::StructByValue),
                spot.specifier,
                !is_record(&q.ty),
            ),
    }
}

/// The type that one step of a declarator makes of a type (C90 6.5.4): a pointer to it, with the qualifiers behind
/// the `*`; an array of it, of so many elements; or a function that returns it.
#[tactic(auto, unfolding(pw_types::specs::Views::view_type), using(pw_types::proofs::ViewLemmas::signature_view))]
pub fn step_type(alloc: Global, step: Derivation, q: QType) -> Result<QType, AllocError>
    ensures { IfOk result (λ made. view_qtype made ≡ spec.step_type (view_derivation step.entry) (view_qtype q)) }
{
    match step {
        Derivation::ToPointer(_, qualifiers) => Ok(QType {
            ty: CType::Pointer(Box::new(alloc, q)?),
            constant: constants(qualifiers) >= 1,
            volatile: volatiles(qualifiers) >= 1,
        }),
        Derivation::ToArray(length) => Ok(plain(CType::Array(Box::new(alloc, q)?, length))),
        Derivation::ToFunction(params) => {
            let signature = Signature { result: q, params };
            Ok(plain(CType::Function(Box::new(alloc, signature)?)))
        }
    }
}

/// What is found of the count of a declarator's steps.
fn steps_within(token: usize, steps: &[Derivation]) -> Finding
    ensures { result.least ≡ found (keeps TypeDepth spec.derivation_limit token (length (view_derivations steps.now)) ∷ []) }
{
    Finding::none().keeps(
        Which::TypeDepth,
        DERIVATION_LIMIT,
        token,
        steps.len() as u64,
    )
}

/// The type that the steps of a declarator make of that of its specifiers.
fn stepped<'a>(
    alloc: Global,
    state: &State<'a>,
    spot: &Spot,
    derivations: Vec<Derivation<'a>>,
    base: QType,
) -> Result<QType, CheckFault>
    ensures { Follows view_qtype (spec.stepped (view_spot spot.now) (view_derivations derivations.entry.items) (view_qtype base)) (view_state state.now) result }
{
    let mut q = base;
    for step in derivations {
        step_point(state.records(), spot, &step, &q).end()?;
        q = step_type(alloc, step, q)?;
    }
    Ok(q)
}

/// The type that a declarator makes of that of its specifiers. The count of its steps is looked at before a type is made.
pub fn built<'a>(
    alloc: Global,
    state: &State<'a>,
    spot: &Spot,
    derivations: Vec<Derivation<'a>>,
    base: QType,
) -> Result<QType, CheckFault>
    ensures { Follows view_qtype (spec.built (view_spot spot.now) (view_derivations derivations.entry.items) (view_qtype base)) (view_state state.now) result }
{
    steps_within(spot.token, &derivations).end()?;
    stepped(alloc, state, spot, derivations, base)
}

/// The type that a declarator makes of that of its specifiers, of which it takes a copy.
pub fn type_declared<'a>(
    alloc: Global,
    state: &State<'a>,
    spot: &Spot,
    specified: &Specified,
    declared: Declared<'a>,
) -> Result<QType, CheckFault>
    ensures { Follows view_qtype (spec.built (view_spot spot.now) (view_declared declared.entry).derivations (view_qtype specified.now.ty)) (view_state state.now) result }
{
    let base = copy_qtype(alloc, &specified.ty)?;
    built(alloc, state, spot, declared.derivations, base)
}
