//! Enumerations (C90 6.5.2.2, 6.5.2.3).

ghost use Rattle.std.specs.Prelude.{◌≡◌, ◌≢◌, Some, IfErr};
ghost use Rattle.pw_check_state.specs.Follows.{Follows, Leads};
ghost use Rattle.pw_check_state.specs.PhraseViews.{view_name};
ghost use Rattle.pw_check_state.specs.StateViews.{view_state};
ghost use Rattle.pw_check_walk.specs.Found.{found};
ghost use Rattle.pw_check_leaves.specs.Parts.{enumerating_point};
ghost use Rattle.pw_check_rules.specs.Leaves as spec;
ghost use Rattle.pw_tree.specs.Views.{view_word};
ghost use Rattle.pw_types.specs.Views.{view_qtype};

use crate::names::{int_type, name_point};
use pw_check_limits::name_within;
use pw_check_rules::Tag;
use pw_check_state::{Entity, Finding, State, fault};
use pw_check_walk::{CheckFault, CheckKind};
use pw_tree::Word;
use pw_types::QType;
use pw_value::words::{INT_MAX, unsigned_sum};

/// An enumeration by its tag; it is an `int`.
#[tactic(auto, unfolding(pw_check_walk::specs::Walks::bind, pw_check_walk::specs::Walks::outcome, pw_check_rules::specs::Leaves::enumeration_rule, pw_check_rules::specs::Leaves::enumeration_by))]
pub fn enumeration_rule(state: &State, word: &Word) -> Result<QType, CheckFault>
    ensures follows { Follows view_qtype (spec.enumeration_rule (view_word word.now)) (view_state state.now) result }
    ensures no_memory { IfErr result (λ fault. fault.kind ≢ CheckKind.NoMemory) }
{
    match state.tag_of(word.text.as_slice()) {
        Some(Tag::Enumeration) => Ok(int_type()),
        Some(Tag::Record(_)) => Err(fault(CheckKind::Redeclared, word.token)),
        None => Err(fault(CheckKind::UnknownName, word.token)),
    }
}

/// Whether a tag names a structure or union.
fn is_record_tag(tag: Option<Tag>) -> bool
    ensures { result ≡ spec.is_record_tag tag }
{
    matches!(tag, Some(Tag::Record(_)))
}

/// What the tag of an enumeration asks whose enumerators follow.
fn enumerating_found(state: &State, word: &Word) -> Finding
    ensures { result.least ≡ found (enumerating_point (view_word word.now) (view_state state.now)) }
{
    let name = word.text.as_slice();
    let before = state.tag_here(name);
    let found = Finding::none()
        .needs(CheckKind::Redeclared, word.token, !is_record_tag(before))
        .needs(CheckKind::Redeclared, word.token, before.is_none());
    name_within(found, word.token, name)
}

/// The tag of an enumeration whose enumerators follow.
pub fn enumerating_rule<'a>(state: &mut State<'a>, tag: Option<&'a Word>) -> Result<(), CheckFault>
    ensures { Leads (λ u. u) (spec.enumerating_rule (view_name tag.entry)) (view_state state.old) result (view_state state.new) }
{
    match tag {
        Some(word) => enumerating_by(state, word),
        None => Ok(()),
    }
}

/// The same by its tag.
fn enumerating_by<'a>(state: &mut State<'a>, word: &'a Word) -> Result<(), CheckFault>
    ensures { Leads (λ u. u) (spec.enumerating_rule (Some (view_word word.now))) (view_state state.old) result (view_state state.new) }
{
    enumerating_found(state, word).end()?;
    state.enter_tag(word.text.as_slice(), Tag::Enumeration)?;
    Ok(())
}

/// One more than a value, unless that is the greatest `int`.
fn value_after(n: u32) -> Option<u32>
    ensures { result ≡ spec.value_after n }
{
    if n == INT_MAX {
        None
    } else {
        Some(unsigned_sum(n, 1))
    }
}

/// What an enumerator asks of its name, before its value is read.
pub fn enumerator_name(state: &State, word: &Word) -> Result<(), CheckFault>
    ensures { Follows (λ u. u) (spec.enumerator_name (view_word word.now)) (view_state state.now) result }
{
    name_point(state, word).end()
}

/// An enumerator with its value, where there is one; the answer is the value of the next one. Its name is asked for here
/// too, since the value may have declared it.
pub fn enumerator_rule<'a>(
    state: &mut State<'a>,
    word: &'a Word,
    value: Option<u32>,
) -> Result<Option<u32>, CheckFault>
    ensures { Leads (λ next. next) (spec.enumerator_rule (view_word word.now) value) (view_state state.old) result (view_state state.new) }
{
    name_point(state, word).end()?;
    let Some(number) = value else {
        return Err(fault(CheckKind::Constant, word.token));
    };
    state.enter(word.text.as_slice(), Entity::EnumerationConstant(number))?;
    Ok(value_after(number))
}
