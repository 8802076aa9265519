//! Declarators (C90 6.5.4, 6.5.5).

ghost use Rattle.std.specs.Prelude.{◌≢◌, IfErr};
ghost use Rattle.pw_check_state.specs.Follows.{Follows, Leads};
ghost use Rattle.pw_check_state.specs.PhraseViews.{view_declared};
ghost use Rattle.pw_check_state.specs.StateViews.{view_state};
ghost use Rattle.pw_check_declarator.specs.Declaring as turns;
ghost use Rattle.pw_check_declarator.specs.Views.{view_step, view_suffixed};
ghost use Rattle.pw_check_rules.specs.Phrases as spec;
ghost use Rattle.pw_tree.specs.Trees.{NoSuffix};
ghost use Rattle.pw_tree.specs.Views as tree;
ghost use Rattle.pw_check_walk.specs.Walks.{pure};

use crate::parameters::prototype;
use crate::steps::{Step, Suffixed, joined, step_gathered};
use pw_check_leaves::length_rule;
use pw_check_state::{Declared, Derivation, Phrases, State, fault, whole_rule};
use pw_check_walk::{CheckFault, CheckKind};
use pw_token::Feature;
use pw_tree::{Core, Declarator, Expr, Suffix, declarators_show_their_lists, first_of_words};
use std::alloc::Global;

/// The length of an array.
fn array_length<'a, P: Phrases<'a>>(
    alloc: Global,
    phrases: &P,
    state: &mut State<'a>,
    length: &'a Expr,
) -> Result<u32, CheckFault>
    requires { P.can_check phrases.now }
    ensures { Leads (λ n. n) (turns.array_length_rule (tree.view_expr length.now)) (view_state state.old) result (view_state state.new) }
{
    let whole = whole_rule(alloc, phrases, state, length)?;
    length_rule(alloc, state, length.first_token(), whole)
}

/// An array as a step.
#[tactic(auto, unfolding(pw_check_walk::specs::Walks::outcome))]
fn array_step<'a>(state: &State<'a>, length: Option<u32>) -> Result<Step<'a>, CheckFault>
    ensures follows { Follows view_step (pure (turns.array_step length)) (view_state state.now) result }
    ensures no_memory { IfErr result (λ fault. fault.kind ≢ CheckKind.NoMemory) }
{
    let _state = state;
    Ok(Step {
        derivation: Derivation::ToArray(length),
        bindings: None,
    })
}

/// One of what stands behind a name. No list has `...`, and none is of identifiers.
#[tactic(auto, unfolding(pw_tree::specs::Views::view_expr, pw_check_walk::specs::Walks::outcome, crate::specs::Declaring::first_suffix))]
fn suffix<'a, P: Phrases<'a>>(
    alloc: Global,
    phrases: &P,
    state: &mut State<'a>,
    suffix: &'a Suffix,
) -> Result<Step<'a>, CheckFault>
    requires { P.can_check phrases.now }
    ensures { Leads view_step (turns.first_suffix (tree.view_suffix suffix.now NoSuffix)) (view_state state.old) result (view_state state.new) }
{
    match suffix {
        Suffix::Array { length, .. } => {
            let length = array_length(alloc, phrases, state, length)?;
            array_step(state, Some(length))
        }
        Suffix::OpenArray { .. } => array_step(state, None),
        Suffix::Parameters { parameters, .. } => {
            declarators_show_their_lists();
            prototype(alloc, phrases, state, parameters)
        }
        Suffix::Variadic { token, .. } => {
            Err(fault(CheckKind::Unsupported(Feature::Variadic), *token))
        }
        Suffix::Identifiers { names, .. } => {
            let kind = CheckKind::Unsupported(Feature::OldStyle);
            Err(fault(kind, first_of_words(names)))
        }
    }
}

/// One more of what stands behind a name.
fn suffix_behind<'a, P: Phrases<'a>>(
    alloc: Global,
    phrases: &P,
    state: &mut State<'a>,
    next: &'a Suffix,
    read: Suffixed<'a>,
) -> Result<Suffixed<'a>, CheckFault>
    requires { P.can_check phrases.now }
    ensures { Leads view_suffixed (turns.suffix_behind (tree.view_suffix next.now NoSuffix) (view_suffixed read.entry)) (view_state state.old) result (view_state state.new) }
{
    let step = suffix(alloc, phrases, state, next)?;
    step_gathered(state, read, step)
}

/// What stands behind a name.
fn suffixes<'a, P: Phrases<'a>>(
    alloc: Global,
    phrases: &P,
    state: &mut State<'a>,
    list: &'a [Suffix],
) -> Result<Suffixed<'a>, CheckFault>
    requires { P.can_check phrases.now }
    ensures { Leads view_suffixed (spec.suffixes_rule (tree.view_suffixes list.now)) (view_state state.old) result (view_state state.new) }
{
    let mut read = Suffixed {
        steps: Vec::new(alloc),
        bindings: None,
    };
    for next in list {
        read = suffix_behind(alloc, phrases, state, next, read)?;
    }
    Ok(read)
}

/// What stands between pointers and suffixes.
#[tactic(auto, unfolding(pw_tree::specs::Views::view_expr, pw_check_walk::specs::Walks::outcome, pw_check_rules::specs::Phrases::core_rule))]
fn core_of<'a, P: Phrases<'a>>(
    alloc: Global,
    phrases: &P,
    state: &mut State<'a>,
    core: &'a Core,
) -> Result<Declared<'a>, CheckFault>
    requires { P.can_check phrases.now }
    ensures { Leads view_declared (spec.core_rule (tree.view_core core.now)) (view_state state.old) result (view_state state.new) }
{
    let name = match core {
        Core::Absent => None,
        Core::Name(word) => Some(word),
        Core::Paren { inner, .. } => {
            declarators_show_their_lists();
            return phrases.declarator(alloc, state, inner);
        }
    };
    Ok(Declared {
        name,
        derivations: Vec::new(alloc),
        bindings: None,
    })
}

/// A declarator, by the rules of the phrases within it.
pub fn declarator_of<'a, P: Phrases<'a>>(
    alloc: Global,
    phrases: &P,
    state: &mut State<'a>,
    declarator: &'a Declarator,
) -> Result<Declared<'a>, CheckFault>
    requires { P.can_check phrases.now }
    ensures { Leads view_declared (spec.declarator_rule (tree.view_declarator declarator.now)) (view_state state.old) result (view_state state.new) }
{
    let inner = core_of(alloc, phrases, state, &declarator.core)?;
    let suffixes_behind = declarator.suffixes.as_slice();
    let outer = suffixes(alloc, phrases, state, suffixes_behind)?;
    joined(alloc, state, declarator.pointers.as_slice(), inner, outer)
}
