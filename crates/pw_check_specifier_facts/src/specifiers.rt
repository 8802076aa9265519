//! Lists of specifiers (C90 6.5.1 to 6.5.3).

ghost use Rattle.std.specs.Prelude.{◌≡◌, ◌≢◌, ◌+◌, ◌-◌, ◌^◌, nat_le, IfOk, IfErr};
ghost use Rattle.pw_check_state.specs.Follows.{Follows};
ghost use Rattle.pw_check_state.specs.PhraseViews.{view_gathered, view_specified};
ghost use Rattle.pw_check_state.specs.StateViews.{view_state};
ghost use Rattle.pw_check_rules.specs.Constants.{truth};
ghost use Rattle.pw_check_specifier_facts.specs.Rows.{AreAtMost, lawful_qualifiers};
ghost use Rattle.pw_check_rules.specs.SpecifierLists as spec;
ghost use Rattle.pw_types.specs.Views.{view_qtype};

use crate::keywords::type_listed;
use pw_check_state::{Gathered, Specified, State, typing};
use pw_check_types::{is_const_object, is_function, is_volatile_object, qualify};
use pw_check_walk::{CheckFault, CheckKind};
use pw_tree::{BasicType, Qualifier, StorageClass};
use pw_types::QType;
use std::alloc::{AllocError, Global};

/// No specifiers yet.
pub fn nothing_gathered(alloc: Global) -> Gathered
    ensures { view_gathered result ≡ spec.nothing_gathered }
{
    Gathered {
        storages: Vec::new(alloc),
        constants: 0,
        volatiles: 0,
        words: Vec::new(alloc),
        others: Vec::new(alloc),
        tag: None,
    }
}

/// What was gathered with a storage class more.
pub fn gather_storage(storage: StorageClass, gathered: Gathered) -> Result<Gathered, AllocError>
    ensures { IfOk result (λ g. view_gathered g ≡ spec.gather_storage storage (view_gathered gathered)) }
{
    let mut gathered = gathered;
    gathered.storages.push(storage)?;
    Ok(gathered)
}

/// What was gathered with a qualifier more.
pub fn gather_qualifier(qualifier: Qualifier, gathered: Gathered) -> Gathered
    requires { AreAtMost (2 ^ 64 - 2) (view_gathered gathered) }
    ensures { view_gathered result ≡ spec.gather_qualifier qualifier (view_gathered gathered) }
{
    let mut gathered = gathered;
    match qualifier {
        Qualifier::Const => gathered.constants += 1,
        Qualifier::Volatile => gathered.volatiles += 1,
    }
    gathered
}

/// What was gathered with a keyword of a type more.
pub fn gather_word(word: BasicType, gathered: Gathered) -> Result<Gathered, AllocError>
    ensures { IfOk result (λ g. view_gathered g ≡ spec.gather_word word (view_gathered gathered)) }
{
    let mut gathered = gathered;
    gathered.words.push(word)?;
    Ok(gathered)
}

/// What was gathered with a structure, a union, an enumeration or a typedef name more, and the token of the tag that it
/// brings in.
pub fn gather_type(
    ty: QType,
    tag: Option<usize>,
    gathered: Gathered,
) -> Result<Gathered, AllocError>
    ensures { IfOk result (λ g. view_gathered g ≡ spec.gather_type (view_qtype ty) tag (view_gathered gathered)) }
{
    let mut gathered = gathered;
    gathered.others.push(ty)?;
    gathered.tag = tag.or(gathered.tag);
    Ok(gathered)
}

/// Whether a qualifier stands once at most, a typedef name's included.
fn stands_once(count: usize, named: bool) -> bool
    ensures { result ≡ nat_le (count + truth named) 1 }
{
    if named { count == 0 } else { count <= 1 }
}

/// Whether so many qualifiers fit a type: each once, and none at a function.
fn are_lawful(constants: usize, volatiles: usize, ty: &QType) -> bool
    ensures { result ≡ lawful_qualifiers constants volatiles (view_qtype ty.now) }
{
    let qualified = constants > 0 || volatiles > 0;
    stands_once(constants, is_const_object(ty))
        && stands_once(volatiles, is_volatile_object(ty))
        && !(qualified && is_function(&ty.ty))
}

/// What a list of specifiers says, by its first token.
#[tactic(auto, unfolding(pw_check_walk::specs::Walks::bind, pw_check_walk::specs::Walks::outcome, pw_check_rules::specs::SpecifierLists::specified))]
pub fn specified(state: &State, first: usize, gathered: Gathered) -> Result<Specified, CheckFault>
    ensures follows { Follows view_specified (spec.specified first (view_gathered gathered)) (view_state state.now) result }
    ensures no_memory { IfErr result (λ fault. fault.kind ≢ CheckKind.NoMemory) }
{
    let Gathered {
        storages,
        constants,
        volatiles,
        words,
        others,
        tag,
    } = gathered;
    let Some(ty) = type_listed(&words, others) else {
        return Err(typing(first));
    };
    if storages.len() > 1 || !are_lawful(constants, volatiles, &ty) {
        return Err(typing(first));
    }
    Ok(Specified {
        storage: storages.first().copied(),
        ty: qualify(ty, constants > 0, volatiles > 0),
        tag,
        first,
    })
}
