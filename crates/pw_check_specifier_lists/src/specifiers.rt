//! Lists of specifiers (C90 6.5.1 to 6.5.3).

ghost use Rattle.std.specs.Prelude.{◌≡◌, ◌-◌, ◌^◌, Err, IfErr};
ghost use Rattle.pw_check_rules.specs.Declarations.{specified_rule};
ghost use Rattle.pw_check_rules.specs.Leaves as leaves;
ghost use Rattle.pw_check_rules.specs.Phrases as spec;
ghost use Rattle.pw_check_rules.specs.SpecifierLists as lists;
ghost use Rattle.pw_check_state.specs.Follows.{Follows, Leads};
ghost use Rattle.pw_check_state.specs.PhraseViews.{view_gathered, view_name, view_specified};
ghost use Rattle.pw_check_state.specs.StateViews.{view_state};
ghost use Rattle.pw_check_specifier_lists.specs.Specifying as turns;
ghost use Rattle.pw_check_specifier_facts.specs.Rows.{AreAtMost};
ghost use Rattle.pw_tree.specs.Trees.{NoSpecifier};
ghost use Rattle.pw_tree.specs.Views.{view_enumerators, view_members, view_specifier, view_specifiers, view_tag, view_word};
ghost use Rattle.pw_types.specs.Views.{view_qtype};
ghost use Rattle.pw_check_walk.specs.Walks.{outcome, pure};

use crate::enumerations::enumeration_list;
use crate::records::record_list;
use pw_check_leaves::{enumeration_rule, int_type, typedef_rule};
use pw_check_records::{record_kind, reference_rule};
use pw_check_specifier_facts::{
    gather_qualifier, gather_storage, gather_type, gather_word, nothing_gathered, specified,
};
use pw_check_state::{Gathered, Phrases, Specified, State, fault};
use pw_check_walk::{CheckFault, CheckKind};
use pw_token::Feature;
use pw_tree::{
    BasicType, Enumerator, Member, Qualifier, RecordKind, Specifier, StorageClass, Word,
    declarators_show_their_lists,
};
use pw_types::QType;
use std::alloc::Global;

/// What was gathered with a type more, and the token of the tag that it brings in.
#[tactic(auto, unfolding(pw_check_walk::specs::Walks::outcome))]
fn type_gathered(
    state: &State,
    ty: QType,
    tag: Option<usize>,
    gathered: Gathered,
) -> Result<Gathered, CheckFault>
    ensures { Follows view_gathered (pure (lists.gather_type (view_qtype ty) tag (view_gathered gathered))) (view_state state.now) result }
{
    let _state = state;
    Ok(gather_type(ty, tag, gathered)?)
}

/// A keyword of a type. There are no floating types.
#[tactic(auto, unfolding(pw_check_walk::specs::Walks::outcome, crate::specs::Specifying::basic_rule))]
fn basic(
    state: &State,
    token: usize,
    word: BasicType,
    gathered: Gathered,
) -> Result<Gathered, CheckFault>
    ensures follows { Follows view_gathered (turns.basic_rule token word (view_gathered gathered)) (view_state state.now) result }
    ensures told { IfErr (outcome (turns.basic_rule token word (view_gathered gathered) (view_state state.now))) (λ fault. result ≡ Err fault) }
{
    let _state = state;
    match word {
        BasicType::Float | BasicType::Double => {
            Err(fault(CheckKind::Unsupported(Feature::Float), token))
        }
        BasicType::Void
        | BasicType::Char
        | BasicType::Short
        | BasicType::Int
        | BasicType::Long
        | BasicType::Signed
        | BasicType::Unsigned => Ok(gather_word(word, gathered)?),
    }
}

/// A typedef name (C90 6.5.6).
fn typedef_name(
    alloc: Global,
    state: &State,
    word: &Word,
    gathered: Gathered,
) -> Result<Gathered, CheckFault>
    ensures { Follows view_gathered (turns.typedef_name_rule (view_word word.now) (view_gathered gathered)) (view_state state.now) result }
{
    let ty = typedef_rule(alloc, state, word)?;
    type_gathered(state, ty, None, gathered)
}

/// A structure or union by its tag (C90 6.5.2.3).
fn record_tag<'a>(
    state: &mut State<'a>,
    kind: RecordKind,
    tag: &'a Word,
    gathered: Gathered,
) -> Result<Gathered, CheckFault>
    ensures { Leads view_gathered (turns.record_tag_rule kind (view_word tag.now) (view_gathered gathered)) (view_state state.old) result (view_state state.new) }
{
    let tagged = reference_rule(state, record_kind(kind), tag)?;
    type_gathered(state, tagged.0, tagged.1, gathered)
}

/// An enumeration by its tag (C90 6.5.2.3).
fn enumeration_tag(state: &State, tag: &Word, gathered: Gathered) -> Result<Gathered, CheckFault>
    ensures follows { Follows view_gathered (turns.enumeration_tag_rule (view_word tag.now) (view_gathered gathered)) (view_state state.now) result }
    ensures told { IfErr (outcome (turns.enumeration_tag_rule (view_word tag.now) (view_gathered gathered) (view_state state.now))) (λ fault. result ≡ Err fault) }
{
    let ty = enumeration_rule(state, tag)?;
    type_gathered(state, ty, None, gathered)
}

/// The tag of a structure, union or enumeration, where it has one.
fn named(tag: &Option<Word>) -> Option<&Word>
    ensures { view_name result ≡ view_tag tag.now }
{
    match tag {
        Some(word) => Some(word),
        None => None,
    }
}

/// The token at which the limits of a structure or union stand: that of its tag, or the first specifier.
fn record_spot(tag: &Option<Word>, first: usize) -> usize
    ensures { result ≡ leaves.record_spot (view_tag tag.now) first }
{
    match tag {
        Some(word) => word.token,
        None => first,
    }
}

/// A storage class (C90 6.5.1).
#[tactic(auto, unfolding(pw_check_walk::specs::Walks::outcome))]
fn storage_class(
    state: &State,
    class: StorageClass,
    gathered: Gathered,
) -> Result<Gathered, CheckFault>
    ensures { Follows view_gathered (pure (lists.gather_storage class (view_gathered gathered))) (view_state state.now) result }
{
    let _state = state;
    Ok(gather_storage(class, gathered)?)
}

/// A type qualifier (C90 6.5.3).
#[tactic(auto, unfolding(pw_check_walk::specs::Walks::outcome))]
fn type_qualifier(
    state: &State,
    qualifier: Qualifier,
    gathered: Gathered,
) -> Result<Gathered, CheckFault>
    requires { AreAtMost (2 ^ 64 - 2) (view_gathered gathered) }
    ensures { Follows view_gathered (pure (lists.gather_qualifier qualifier (view_gathered gathered))) (view_state state.now) result }
{
    let _state = state;
    Ok(gather_qualifier(qualifier, gathered))
}

/// A structure or union with its members; its own limits stand at the token `spot`.
fn record<'a, P: Phrases<'a>>(
    alloc: Global,
    phrases: &P,
    state: &mut State<'a>,
    kind: RecordKind,
    spot: usize,
    tag: Option<&'a Word>,
    members: &'a [Member],
    gathered: Gathered,
) -> Result<Gathered, CheckFault>
    requires { P.can_check phrases.now }
    ensures { Leads view_gathered (turns.record_list_rule kind spot (view_name tag.entry) (view_members members.now) (view_gathered gathered)) (view_state state.old) result (view_state state.new) }
{
    let ty = record_list(alloc, phrases, state, record_kind(kind), spot, tag, members)?;
    type_gathered(state, ty, None, gathered)
}

/// An enumeration with its enumerators, which is an `int`.
fn enumeration<'a, P: Phrases<'a>>(
    alloc: Global,
    phrases: &P,
    state: &mut State<'a>,
    tag: Option<&'a Word>,
    enumerators: &'a [Enumerator],
    gathered: Gathered,
) -> Result<Gathered, CheckFault>
    requires { P.can_check phrases.now }
    ensures { Leads view_gathered (turns.enumeration_list_rule (view_name tag.entry) (view_enumerators enumerators.now) (view_gathered gathered)) (view_state state.old) result (view_state state.new) }
{
    enumeration_list(alloc, phrases, state, tag, enumerators)?;
    type_gathered(state, int_type(), None, gathered)
}

/// One specifier, behind what was gathered of its list; `first` is the list's first token.
#[tactic(auto, unfolding(pw_tree::specs::Views::view_expr, crate::specs::Specifying::first_specifier))]
fn specifier<'a, P: Phrases<'a>>(
    alloc: Global,
    phrases: &P,
    state: &mut State<'a>,
    specifier: &'a Specifier,
    first: usize,
    gathered: Gathered,
) -> Result<Gathered, CheckFault>
    requires phrases { P.can_check phrases.now }
    requires room { AreAtMost (2 ^ 64 - 2) (view_gathered gathered) }
    ensures { Leads view_gathered (turns.first_specifier (view_specifier specifier.now NoSpecifier) first (view_gathered gathered)) (view_state state.old) result (view_state state.new) }
{
    declarators_show_their_lists();
    match specifier {
        Specifier::Storage { class, .. } => storage_class(state, *class, gathered),
        Specifier::Qualifier { qualifier, .. } => type_qualifier(state, *qualifier, gathered),
        Specifier::Basic { token, basic: word } => basic(state, *token, *word, gathered),
        Specifier::TypedefName(word) => typedef_name(alloc, state, word, gathered),
        Specifier::RecordTag { kind, tag, .. } => record_tag(state, *kind, tag, gathered),
        Specifier::Record {
            kind,
            tag,
            members,
            ..
        } => {
            let spot = record_spot(tag, first);
            let tag = named(tag);
            record(alloc, phrases, state, *kind, spot, tag, members, gathered)
        }
        Specifier::EnumTag { tag, .. } => enumeration_tag(state, tag, gathered),
        Specifier::Enum {
            tag,
            enumerators,
            ..
        } => enumeration(alloc, phrases, state, named(tag), enumerators, gathered),
    }
}

/// What a list has; `first` is its first token.
fn gather<'a, P: Phrases<'a>>(
    alloc: Global,
    phrases: &P,
    state: &mut State<'a>,
    specifiers: &'a [Specifier],
    first: usize,
) -> Result<Gathered, CheckFault>
    requires { P.can_check phrases.now }
    ensures { Leads view_gathered (spec.specifiers_rule (view_specifiers specifiers.now) first lists.nothing_gathered) (view_state state.old) result (view_state state.new) }
{
    let mut gathered = nothing_gathered(alloc);
    for next in specifiers {
        gathered = specifier(alloc, phrases, state, next, first, gathered)?;
    }
    Ok(gathered)
}

/// What a list of specifiers says, by the rules of the phrases within it; `first` is the token at which it stands.
pub fn specifiers_of<'a, P: Phrases<'a>>(
    alloc: Global,
    phrases: &P,
    state: &mut State<'a>,
    specifiers: &'a [Specifier],
    first: usize,
) -> Result<Specified, CheckFault>
    requires { P.can_check phrases.now }
    ensures { Leads view_specified (specified_rule (view_specifiers specifiers.now) first) (view_state state.old) result (view_state state.new) }
{
    let gathered = gather(alloc, phrases, state, specifiers, first)?;
    specified(state, first, gathered)
}
