//! Structures and unions by their tags (C90 6.5.2.1, 6.5.2.3).

ghost use Rattle.std.specs.Prelude.{◌≡◌, ◌≢◌, None, Some, [], ◌∷◌, IfErr};
ghost use Rattle.pw_check_state.specs.Follows.{Follows, Leads};
ghost use Rattle.pw_check_state.specs.PhraseViews.{view_name};
ghost use Rattle.pw_check_state.specs.StateViews.{view_state};
ghost use Rattle.pw_check_walk.specs.Found.{found_behind};
ghost use Rattle.pw_check_records.specs.Views.{view_tagged};
ghost use Rattle.pw_check_rules.specs.Leaves as spec;
ghost use Rattle.pw_check_rules.specs.declared.names.Tag.TheVariants as named;
ghost use Rattle.pw_tree.specs.Views.{view_word};
ghost use Rattle.pw_types.specs.Records as records;

use pw_check_limits::name_within;
use pw_check_rules::Tag;
use pw_check_state::{Finding, State, fault};
use pw_check_types::plain;
use pw_check_walk::{CheckFault, CheckKind};
use pw_tree::{RecordKind as TreeKind, Word};
use pw_types::{CType, QType, RecordKind, Types};

/// A structure or a union, as types speak of it.
pub fn record_kind(kind: TreeKind) -> RecordKind
    ensures { result ≡ spec.record_kind kind }
{
    match kind {
        TreeKind::Struct => RecordKind::Structure,
        TreeKind::Union => RecordKind::Union,
    }
}

// Whether both are structures or both unions.
fn same_record_kind(a: RecordKind, b: RecordKind) -> bool
    ensures { result ≡ spec.same_record_kind a b }
{
    match (a, b) {
        (RecordKind::Structure, RecordKind::Structure) | (RecordKind::Union, RecordKind::Union) => {
            true
        }
        (RecordKind::Structure, RecordKind::Union) | (RecordKind::Union, RecordKind::Structure) => {
            false
        }
    }
}

// Whether the type of a number is a structure or a union.
fn kind_at(types: &Types, number: u32) -> RecordKind
    ensures { result ≡ records.kind_at types.now number }
{
    match types.record(number) {
        Some(record) => record.kind,
        None => RecordKind::Structure,
    }
}

// A tag is that of a structure or that of a union.
fn kind_point(
    finding: Finding,
    types: &Types,
    kind: RecordKind,
    number: u32,
    token: usize,
) -> Finding
    ensures { result.least ≡ found_behind finding.least (spec.kind_point types.now kind number token ∷ []) }
{
    let same = same_record_kind(kind, kind_at(types, number));
    finding.needs(CheckKind::Redeclared, token, same)
}

// A type of its own with its tag.
fn new_tag<'a>(state: &mut State<'a>, kind: RecordKind, word: &'a Word) -> Result<u32, CheckFault>
    ensures { Leads (λ n. n) (spec.new_tag kind (view_word word.now)) (view_state state.old) result (view_state state.new) }
{
    let name = word.text.as_slice();
    name_within(Finding::none(), word.token, name).end()?;
    let number = state.add_record(kind)?;
    state.enter_tag(name, Tag::Record(number))?;
    Ok(number)
}

// A structure or union whose tag names nothing yet: the tag is declared, and its token tells that.
fn reference_anew<'a>(
    state: &mut State<'a>,
    kind: RecordKind,
    word: &'a Word,
) -> Result<(QType, Option<usize>), CheckFault>
    ensures { Leads view_tagged (spec.reference_by kind (view_word word.now) None) (view_state state.old) result (view_state state.new) }
{
    let number = new_tag(state, kind, word)?;
    Ok((plain(CType::Record(number)), Some(word.token)))
}

// A structure or union whose tag names the type of this number.
fn reference_to(
    state: &State,
    kind: RecordKind,
    word: &Word,
    number: u32,
) -> Result<(QType, Option<usize>), CheckFault>
    ensures follows { Follows view_tagged (spec.reference_by kind (view_word word.now) (Some (named.Record number))) (view_state state.now) result }
    ensures no_memory { IfErr result (λ fault. fault.kind ≢ CheckKind.NoMemory) }
{
    kind_point(Finding::none(), state.records(), kind, number, word.token).end()?;
    Ok((plain(CType::Record(number)), None))
}

// A structure or union by what its tag names.
#[tactic(auto, unfolding(pw_check_walk::specs::Walks::outcome, pw_check_rules::specs::Leaves::reference_by))]
fn reference_by<'a>(
    state: &mut State<'a>,
    kind: RecordKind,
    word: &'a Word,
    tag: Option<Tag>,
) -> Result<(QType, Option<usize>), CheckFault>
    ensures { Leads view_tagged (spec.reference_by kind (view_word word.now) tag) (view_state state.old) result (view_state state.new) }
{
    match tag {
        None => reference_anew(state, kind, word),
        Some(Tag::Record(number)) => reference_to(state, kind, word, number),
        Some(Tag::Enumeration) => Err(fault(CheckKind::Redeclared, word.token)),
    }
}

/// A structure or union by its tag, which is declared here where it is not visible; then its token stands beside the
/// type.
#[tactic(auto, unfolding(pw_check_walk::specs::Walks::bind, pw_check_rules::specs::Leaves::reference_rule))]
pub fn reference_rule<'a>(
    state: &mut State<'a>,
    kind: RecordKind,
    word: &'a Word,
) -> Result<(QType, Option<usize>), CheckFault>
    ensures { Leads view_tagged (spec.reference_rule kind (view_word word.now)) (view_state state.old) result (view_state state.new) }
{
    let tag = state.tag_of(word.text.as_slice());
    reference_by(state, kind, word, tag)
}

// A tag alone, which names nothing in its scope yet.
fn alone_anew<'a>(state: &mut State<'a>, kind: RecordKind, word: &'a Word) -> Result<(), CheckFault>
    ensures { Leads (λ u. u) (spec.alone_by kind (view_word word.now) None) (view_state state.old) result (view_state state.new) }
{
    new_tag(state, kind, word)?;
    Ok(())
}

// A tag alone, which names this in its scope.
fn alone_again<'a>(
    state: &mut State<'a>,
    kind: RecordKind,
    word: &'a Word,
    tag: Tag,
) -> Result<(), CheckFault>
    ensures { Leads (λ u. u) (spec.alone_by kind (view_word word.now) (Some tag)) (view_state state.old) result (view_state state.new) }
{
    reference_by(state, kind, word, Some(tag))?;
    Ok(())
}

// A declaration of a tag alone, by what the tag names in its scope.
fn alone_by<'a>(
    state: &mut State<'a>,
    kind: RecordKind,
    word: &'a Word,
    tag: Option<Tag>,
) -> Result<(), CheckFault>
    ensures { Leads (λ u. u) (spec.alone_by kind (view_word word.now) tag) (view_state state.old) result (view_state state.new) }
{
    match tag {
        None => alone_anew(state, kind, word),
        Some(tag) => alone_again(state, kind, word, tag),
    }
}

/// `struct tag;` alone declares the tag in its own scope.
#[tactic(auto, unfolding(pw_check_walk::specs::Walks::bind, pw_check_rules::specs::Leaves::alone_rule))]
pub fn alone_rule<'a>(
    state: &mut State<'a>,
    kind: RecordKind,
    word: &'a Word,
) -> Result<(), CheckFault>
    ensures { Leads (λ u. u) (spec.alone_rule kind (view_word word.now)) (view_state state.old) result (view_state state.new) }
{
    let tag = state.tag_here(word.text.as_slice());
    alone_by(state, kind, word, tag)
}

// The type that a list of members defines, whose tag names the type of this number.
fn opening_of(state: &State, kind: RecordKind, word: &Word, number: u32) -> Result<u32, CheckFault>
    ensures follows { Follows (λ n. n) (spec.opening_by kind (view_word word.now) (Some (named.Record number))) (view_state state.now) result }
    ensures no_memory { IfErr result (λ fault. fault.kind ≢ CheckKind.NoMemory) }
{
    let opened = state.is_opened(number);
    kind_point(Finding::none(), state.records(), kind, number, word.token)
        .needs(CheckKind::Redeclared, word.token, !opened)
        .end()?;
    Ok(number)
}

// The type that a list of members defines, by what its tag names in its scope.
#[tactic(auto, unfolding(pw_check_walk::specs::Walks::outcome, pw_check_rules::specs::Leaves::opening_by))]
fn opening_by<'a>(
    state: &mut State<'a>,
    kind: RecordKind,
    word: &'a Word,
    tag: Option<Tag>,
) -> Result<u32, CheckFault>
    ensures { Leads (λ n. n) (spec.opening_by kind (view_word word.now) tag) (view_state state.old) result (view_state state.new) }
{
    match tag {
        None => new_tag(state, kind, word),
        Some(Tag::Record(number)) => opening_of(state, kind, word, number),
        Some(Tag::Enumeration) => Err(fault(CheckKind::Redeclared, word.token)),
    }
}

// The type that a list of members defines behind its tag; its members are begun.
fn opening_tagged<'a>(
    state: &mut State<'a>,
    kind: RecordKind,
    word: &'a Word,
) -> Result<u32, CheckFault>
    ensures { Leads (λ n. n) (spec.opening_rule kind (Some (view_word word.now))) (view_state state.old) result (view_state state.new) }
{
    let found = state.tag_here(word.text.as_slice());
    let number = opening_by(state, kind, word, found)?;
    state.open_record(number);
    Ok(number)
}

/// The type that a list of members defines, by its number; its members are begun.
#[tactic(auto, unfolding(pw_check_walk::specs::Walks::bind, pw_check_walk::specs::Walks::outcome, pw_check_rules::specs::Leaves::new_record, pw_check_rules::specs::Leaves::opening_rule))]
pub fn opening_rule<'a>(
    state: &mut State<'a>,
    kind: RecordKind,
    tag: Option<&'a Word>,
) -> Result<u32, CheckFault>
    ensures { Leads (λ n. n) (spec.opening_rule kind (view_name tag.entry)) (view_state state.old) result (view_state state.new) }
{
    match tag {
        None => {
            let number = state.add_record(kind)?;
            state.open_record(number);
            Ok(number)
        }
        Some(word) => opening_tagged(state, kind, word),
    }
}
