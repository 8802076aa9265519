//! Declarations without declarators, and what all declarations ask of their specifiers (C90 6.5, 6.7).

ghost use Rattle.std.specs.Prelude.{◌≡◌, ◌≢◌, ◌||◌, IfErr, option_map};
ghost use Rattle.pw_check_state.specs.Follows.{Follows, Leads};
ghost use Rattle.pw_check_state.specs.PhraseViews.{view_specified};
ghost use Rattle.pw_check_state.specs.StateViews.{view_state};
ghost use Rattle.pw_check_decl.specs.Parts as part;
ghost use Rattle.pw_check_decl.specs.Views.{view_made, view_tag_alone};
ghost use Rattle.pw_check_rules.specs.Declarations as spec;
ghost use Rattle.pw_tree.specs.Views.{view_specifier, view_specifiers};
ghost use Rattle.pw_check_walk.specs.declared.constraints.CheckKind.TheVariants.{NoMemory};

use pw_check_decl_names::{is_auto, is_register};
use pw_check_records::{alone_rule, record_kind};
use pw_check_state::{Phrases, Specified, State, first_of_list, typing};
use pw_check_walk::CheckFault;
use pw_tree::{RecordKind, Specifier, Word, declarators_show_their_lists};
use pw_typed::Initialiser;
use std::alloc::Global;

/// At file scope nothing is `auto` or `register` (C90 6.7).
#[tactic(auto, unfolding(pw_check_walk::specs::Walks::bind, pw_check_walk::specs::Walks::outcome, pw_check_rules::specs::Declarations::storage_rule))]
pub(crate) fn storage_rule(state: &State<'_>, specified: &Specified) -> Result<(), CheckFault>
    ensures follows { Follows (λ u. u) (spec.storage_rule (view_specified specified.now)) (view_state state.now) result }
    ensures no_memory { IfErr result (λ fault. fault.kind ≢ NoMemory) }
{
    let automatic = is_auto(specified.storage) || is_register(specified.storage);
    if state.is_file_scope() && automatic {
        return Err(typing(specified.first));
    }
    Ok(())
}

/// Whether a specifier declares a tag or the members of an enumeration (C90 6.5).
#[tactic(auto, unfolding(pw_tree::specs::Views::view_expr, pw_check_rules::specs::Declarations::declares_something))]
fn declares(specifier: &Specifier) -> bool
    ensures { (rest : _) → spec.declares_something (view_specifier specifier.now rest) ≡ (result || spec.declares_something rest) }
{
    declarators_show_their_lists();
    match specifier {
        Specifier::RecordTag { .. } | Specifier::EnumTag { .. } | Specifier::Enum { .. } => true,
        Specifier::Record { tag, .. } => tag.is_some(),
        Specifier::Storage { .. }
        | Specifier::Qualifier { .. }
        | Specifier::Basic { .. }
        | Specifier::TypedefName(_) => false,
    }
}

/// Whether specifiers declare a tag or the members of an enumeration.
fn declares_something(specifiers: &[Specifier]) -> bool
    ensures { result ≡ spec.declares_something (view_specifiers specifiers.now) }
{
    for specifier in specifiers {
        if declares(specifier) {
            return true;
        }
    }
    false
}

/// A declaration without declarators declares something.
#[tactic(auto, unfolding(pw_check_walk::specs::Walks::bind, pw_check_walk::specs::Walks::outcome, crate::specs::Parts::something_rule))]
fn something_rule(specifiers: &[Specifier], first: usize) -> Result<(), CheckFault>
    ensures follows { (s : _) → Follows (λ u. u) (part.something_rule (view_specifiers specifiers.now) first) s result }
    ensures no_memory { IfErr result (λ fault. fault.kind ≢ NoMemory) }
{
    if declares_something(specifiers) {
        Ok(())
    } else {
        Err(typing(first))
    }
}

/// The tag of specifiers that are a structure's or union's tag alone.
#[tactic(auto, using(crate::proofs::BareLemmas::tag_several, crate::proofs::BareLemmas::tag_other, crate::proofs::BareLemmas::tag_found))]
fn tag_alone(specifiers: &[Specifier]) -> Option<(RecordKind, &Word)>
    ensures { option_map view_tag_alone result ≡ part.tag_alone (view_specifiers specifiers.now) }
{
    let [only] = specifiers else {
        return None;
    };
    match only {
        Specifier::RecordTag { kind, tag, .. } => Some((*kind, tag)),
        _ => None,
    }
}

/// A declaration without declarators that is no tag alone.
fn bare_others<'a, P: Phrases<'a>>(
    alloc: Global,
    phrases: &P,
    state: &mut State<'a>,
    specifiers: &'a [Specifier],
) -> Result<Vec<Initialiser>, CheckFault>
    requires { P.can_check phrases.now }
    ensures { Leads view_made (part.bare_others (view_specifiers specifiers.now)) (view_state state.old) result (view_state state.new) }
{
    let first = first_of_list(specifiers);
    let specified = phrases.specifiers(alloc, state, specifiers, first)?;
    storage_rule(state, &specified)?;
    something_rule(specifiers, specified.first)?;
    Ok(Vec::new(alloc))
}

/// A declaration without declarators declares a tag or the members of an enumeration (C90 6.5).
pub(crate) fn bare_rule<'a, P: Phrases<'a>>(
    alloc: Global,
    phrases: &P,
    state: &mut State<'a>,
    specifiers: &'a [Specifier],
) -> Result<Vec<Initialiser>, CheckFault>
    requires { P.can_check phrases.now }
    ensures { Leads view_made (spec.bare_rule (view_specifiers specifiers.now)) (view_state state.old) result (view_state state.new) }
{
    match tag_alone(specifiers) {
        Some((kind, word)) => {
            alone_rule(state, record_kind(kind), word)?;
            Ok(Vec::new(alloc))
        }
        None => bare_others(alloc, phrases, state, specifiers),
    }
}
