//! The steps of a declarator, from the name to the type.

ghost use Rattle.std.specs.Prelude.{◌≡◌, map, IfOk};
ghost use Rattle.pw_check_state.specs.Follows.{Follows};
ghost use Rattle.pw_check_state.specs.PhraseViews.{view_declared, view_derivations};
ghost use Rattle.pw_check_state.specs.StateViews.{view_state};
ghost use Rattle.pw_check_declarator.specs.Declaring as turns;
ghost use Rattle.pw_check_declarator.specs.Views.{view_step, view_suffixed};
ghost use Rattle.pw_check_rules.specs.Derivations.{pointer_step};
ghost use Rattle.pw_check_rules.specs.Phrases as spec;
ghost use Rattle.pw_tree.specs.Views as tree;
ghost use Rattle.pw_check_walk.specs.Walks.{pure};

use pw_check_state::{Bindings, Declared, Derivation, State};
use pw_check_walk::CheckFault;
use pw_tree::Pointer;
use std::alloc::{AllocError, Global};

/// A step of a declarator, and what it declares where it is a list of parameters.
#[derive(Drop)]
pub struct Step<'a> {
    pub derivation: Derivation<'a>,
    pub bindings: Option<Bindings<'a>>,
}

/// What stands behind a name: its steps in the order of the text, of which the last is the first outward, and what the
/// first list of parameters declares.
#[derive(Drop)]
pub struct Suffixed<'a> {
    pub steps: Vec<Derivation<'a>>,
    pub bindings: Option<Bindings<'a>>,
}

/// What was read behind a name with a step more.
#[tactic(auto, unfolding(pw_check_walk::specs::Walks::outcome), using(crate::proofs::Lists::turned_push, crate::proofs::Lists::bound_or))]
pub(crate) fn step_gathered<'a>(
    state: &State<'a>,
    read: Suffixed<'a>,
    step: Step<'a>,
) -> Result<Suffixed<'a>, CheckFault>
    ensures { Follows view_suffixed (pure (turns.with_step (view_suffixed read.entry) (view_step step.entry))) (view_state state.now) result }
{
    let _state = state;
    let mut steps = read.steps;
    steps.push(step.derivation)?;
    Ok(Suffixed {
        steps,
        bindings: read.bindings.or(step.bindings),
    })
}

/// The steps of pointers, in their order.
fn pointer_steps<'a>(
    alloc: Global,
    pointers: &'a [Pointer],
) -> Result<Vec<Derivation<'a>>, AllocError>
    ensures { IfOk result (λ steps. view_derivations steps.items ≡ map pointer_step (tree.view_pointers pointers.now)) }
{
    let mut steps = Vec::new(alloc);
    for pointer in pointers {
        steps.push(Derivation::ToPointer(pointer.token, pointer.qualifiers.as_slice()))?;
    }
    Ok(steps)
}

/// What a declarator says by its parts. The list of parameters nearest to the name counts.
#[tactic(auto, unfolding(pw_check_walk::specs::Walks::outcome), using(crate::proofs::Lists::shown_append, crate::proofs::Lists::bound_or))]
pub(crate) fn joined<'a>(
    alloc: Global,
    state: &State<'a>,
    pointers: &'a [Pointer],
    inner: Declared<'a>,
    outer: Suffixed<'a>,
) -> Result<Declared<'a>, CheckFault>
    ensures { Follows view_declared (pure (spec.joined (tree.view_pointers pointers.now) (view_declared inner.entry) (view_suffixed outer.entry))) (view_state state.now) result }
{
    let _state = state;
    let mut derivations = pointer_steps(alloc, pointers)?;
    let mut behind = outer.steps;
    behind.reverse();
    derivations.append(&mut behind)?;
    let mut within = inner.derivations;
    derivations.append(&mut within)?;
    Ok(Declared {
        name: inner.name,
        derivations,
        bindings: inner.bindings.or(outer.bindings),
    })
}
