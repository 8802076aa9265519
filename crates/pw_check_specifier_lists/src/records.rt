//! Structures and unions with their members (C90 6.5.2.1).

ghost use Rattle.std.specs.Prelude.{◌≢◌, [], IfErr};
ghost use Rattle.pw_check_rules.specs.Phrases as spec;
ghost use Rattle.pw_check_state.specs.Follows.{Follows, Leads};
ghost use Rattle.pw_check_state.specs.PhraseViews.{view_name, view_specified};
ghost use Rattle.pw_check_state.specs.StateViews.{view_state};
ghost use Rattle.pw_check_specifier_lists.specs.Specifying as turns;
ghost use Rattle.pw_check_records.specs.Views.{view_member_list};
ghost use Rattle.pw_tree.specs.Trees.{NoMemberDeclarator};
ghost use Rattle.pw_tree.specs.Views as tree;
ghost use Rattle.pw_types.specs.Views.{view_qtype};
ghost use Rattle.pw_check_walk.specs.Causes.{NoBitField};
ghost use Rattle.pw_check_walk.specs.Walks.{refused};

use pw_check_records::{MemberList, closing_rule, member_rule, opening_rule};
use pw_check_state::{Phrases, Specified, State, fault, first_of_list};
use pw_check_walk::{CheckFault, CheckKind};
use pw_token::Feature;
use pw_tree::{Declarator, Member, MemberDeclarator, Word, declarators_show_their_lists};
use pw_types::{QType, RecordKind};
use std::alloc::Global;

/// A member by its declarator, behind those before.
fn plain_member<'a, P: Phrases<'a>>(
    alloc: Global,
    phrases: &P,
    state: &mut State<'a>,
    declarator: &'a Declarator,
    specified: &Specified,
    found: MemberList<'a>,
) -> Result<MemberList<'a>, CheckFault>
    requires { P.can_check phrases.now }
    ensures { Leads view_member_list (turns.plain_member_rule (tree.view_declarator declarator.now) (view_specified specified.now) (view_member_list found.entry)) (view_state state.old) result (view_state state.new) }
{
    let declared = phrases.declarator(alloc, state, declarator)?;
    member_rule(alloc, state, specified, declared, found)
}

/// There are no bit-fields; the fault of one stands at this token.
#[tactic(auto, unfolding(pw_check_walk::specs::Walks::outcome))]
fn no_bit_field<'a>(state: &State<'a>, token: usize) -> Result<MemberList<'a>, CheckFault>
    ensures follows { Follows view_member_list (refused NoBitField token) (view_state state.now) result }
    ensures no_memory { IfErr result (λ fault. fault.kind ≢ CheckKind.NoMemory) }
{
    let _state = state;
    Err(fault(CheckKind::Unsupported(Feature::BitField), token))
}

/// A bit-field with its declarator, which is read first; `token` is that of its `:`.
fn bit_field<'a, P: Phrases<'a>>(
    alloc: Global,
    phrases: &P,
    state: &mut State<'a>,
    declarator: &'a Declarator,
    token: usize,
) -> Result<MemberList<'a>, CheckFault>
    requires { P.can_check phrases.now }
    ensures { Leads view_member_list (turns.bit_field_rule (tree.view_declarator declarator.now) token) (view_state state.old) result (view_state state.new) }
{
    let first = declarator.first_token().unwrap_or(token);
    let _declared = phrases.declarator(alloc, state, declarator)?;
    no_bit_field(state, first)
}

/// One member of a declaration of members, behind those before.
#[tactic(auto, unfolding(pw_tree::specs::Views::view_expr, crate::specs::Specifying::first_member))]
fn member<'a, P: Phrases<'a>>(
    alloc: Global,
    phrases: &P,
    state: &mut State<'a>,
    declarator: &'a MemberDeclarator,
    specified: &Specified,
    found: MemberList<'a>,
) -> Result<MemberList<'a>, CheckFault>
    requires { P.can_check phrases.now }
    ensures { Leads view_member_list (turns.first_member (tree.view_member_declarator declarator.now NoMemberDeclarator) (view_specified specified.now) (view_member_list found.entry)) (view_state state.old) result (view_state state.new) }
{
    declarators_show_their_lists();
    match declarator {
        MemberDeclarator::Plain(plain) => {
            plain_member(alloc, phrases, state, plain, specified, found)
        }
        MemberDeclarator::BitField {
            declarator: field,
            token,
            ..
        } => bit_field(alloc, phrases, state, field, *token),
        MemberDeclarator::Padding { token, .. } => no_bit_field(state, *token),
    }
}

/// The members of one declaration, behind those before.
fn member_declarators<'a, P: Phrases<'a>>(
    alloc: Global,
    phrases: &P,
    state: &mut State<'a>,
    declarators: &'a [MemberDeclarator],
    specified: &Specified,
    before: MemberList<'a>,
) -> Result<MemberList<'a>, CheckFault>
    requires { P.can_check phrases.now }
    ensures { Leads view_member_list (spec.member_declarators_rule (tree.view_member_declarators declarators.now) (view_specified specified.now) (view_member_list before.entry)) (view_state state.old) result (view_state state.new) }
{
    let mut found = before;
    for next in declarators {
        found = member(alloc, phrases, state, next, specified, found)?;
    }
    Ok(found)
}

/// A declaration of members, behind those before.
fn member_declaration<'a, P: Phrases<'a>>(
    alloc: Global,
    phrases: &P,
    state: &mut State<'a>,
    declaration: &'a Member,
    before: MemberList<'a>,
) -> Result<MemberList<'a>, CheckFault>
    requires { P.can_check phrases.now }
    ensures { Leads view_member_list (turns.member_declaration (tree.view_specifiers declaration.now.specifiers.items) (tree.view_member_declarators declaration.now.declarators.items) (view_member_list before.entry)) (view_state state.old) result (view_state state.new) }
{
    let specifiers = declaration.specifiers.as_slice();
    let declarators = declaration.declarators.as_slice();
    let specified = phrases.specifiers(alloc, state, specifiers, first_of_list(specifiers))?;
    member_declarators(alloc, phrases, state, declarators, &specified, before)
}

/// The members of a structure or union.
fn members<'a, P: Phrases<'a>>(
    alloc: Global,
    phrases: &P,
    state: &mut State<'a>,
    list: &'a [Member],
) -> Result<MemberList<'a>, CheckFault>
    requires { P.can_check phrases.now }
    ensures { Leads view_member_list (spec.members_rule (tree.view_members list.now) []) (view_state state.old) result (view_state state.new) }
{
    let mut found = MemberList::new(alloc);
    for next in list {
        found = member_declaration(alloc, phrases, state, next, found)?;
    }
    Ok(found)
}

/// The type of a structure or union with its members; its own limits stand at the token `spot`.
pub fn record_list<'a, P: Phrases<'a>>(
    alloc: Global,
    phrases: &P,
    state: &mut State<'a>,
    kind: RecordKind,
    spot: usize,
    tag: Option<&'a Word>,
    list: &'a [Member],
) -> Result<QType, CheckFault>
    requires { P.can_check phrases.now }
    ensures { Leads view_qtype (turns.record_rule kind spot (view_name tag.entry) (tree.view_members list.now)) (view_state state.old) result (view_state state.new) }
{
    let number = opening_rule(state, kind, tag)?;
    let found = members(alloc, phrases, state, list)?;
    closing_rule(alloc, state, kind, spot, number, found)
}
