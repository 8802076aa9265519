//! Enumerations (C90 6.5.2.2).

ghost use Rattle.std.specs.Prelude.{Some};
ghost use Rattle.pw_check_rules.specs.Phrases as spec;
ghost use Rattle.pw_check_state.specs.Follows.{Leads};
ghost use Rattle.pw_check_state.specs.PhraseViews.{view_name};
ghost use Rattle.pw_check_state.specs.StateViews.{view_state};
ghost use Rattle.pw_check_specifier_lists.specs.Specifying as turns;
ghost use Rattle.pw_tree.specs.Trees.{NoEnumerator};
ghost use Rattle.pw_tree.specs.Views.{view_enumerator, view_enumerators, view_expr, view_word};

use pw_check_leaves::{enumerating_rule, enumerator_name, enumerator_rule, enumerator_value};
use pw_check_state::{Phrases, State, whole_rule};
use pw_check_walk::CheckFault;
use pw_tree::{Enumerator, Expr, Word};
use std::alloc::Global;

/// An enumerator with the value that it is given, which is read behind the point of the name; the answer is the value of
/// one behind it without its own.
fn valued_enumerator<'a, P: Phrases<'a>>(
    alloc: Global,
    phrases: &P,
    state: &mut State<'a>,
    name: &'a Word,
    value: &'a Expr,
) -> Result<Option<u32>, CheckFault>
    requires { P.can_check phrases.now }
    ensures { Leads (λ next. next) (turns.valued_enumerator (view_word name.now) (view_expr value.now)) (view_state state.old) result (view_state state.new) }
{
    enumerator_name(state, name)?;
    let whole = whole_rule(alloc, phrases, state, value)?;
    let number = enumerator_value(alloc, state, value.first_token(), whole)?;
    enumerator_rule(state, name, Some(number))
}

/// An enumerator, which without a value of its own has this one.
#[tactic(auto, unfolding(pw_tree::specs::Views::view_expr, crate::specs::Specifying::first_enumerator))]
fn enumerator<'a, P: Phrases<'a>>(
    alloc: Global,
    phrases: &P,
    state: &mut State<'a>,
    enumerator: &'a Enumerator,
    value: Option<u32>,
) -> Result<Option<u32>, CheckFault>
    requires { P.can_check phrases.now }
    ensures { Leads (λ next. next) (turns.first_enumerator (view_enumerator enumerator.now NoEnumerator) value) (view_state state.old) result (view_state state.new) }
{
    match enumerator {
        Enumerator::Plain(name) => enumerator_rule(state, name, value),
        Enumerator::Valued { name, value } => valued_enumerator(alloc, phrases, state, name, value),
    }
}

/// Enumerators, the first from 0.
fn enumerators<'a, P: Phrases<'a>>(
    alloc: Global,
    phrases: &P,
    state: &mut State<'a>,
    list: &'a [Enumerator],
) -> Result<(), CheckFault>
    requires { P.can_check phrases.now }
    ensures { Leads (λ u. u) (spec.enumerators_rule (view_enumerators list.now) (Some 0)) (view_state state.old) result (view_state state.new) }
{
    let mut value = Some(0);
    for next in list {
        value = enumerator(alloc, phrases, state, next, value)?;
    }
    Ok(())
}

/// Checks an enumeration with its list (C90 6.5.2.2): its tag, where it has one, is declared, and each enumerator is
/// a constant of type `int`, the first 0 and each other one more, but where a value is given.
pub fn enumeration_list<'a, P: Phrases<'a>>(
    alloc: Global,
    phrases: &P,
    state: &mut State<'a>,
    tag: Option<&'a Word>,
    list: &'a [Enumerator],
) -> Result<(), CheckFault>
    requires { P.can_check phrases.now }
    ensures { Leads (λ u. u) (turns.listed_enumeration (view_name tag.entry) (view_enumerators list.now)) (view_state state.old) result (view_state state.new) }
{
    enumerating_rule(state, tag)?;
    enumerators(alloc, phrases, state, list)
}
