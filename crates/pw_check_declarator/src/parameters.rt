//! Lists of parameters (C90 6.5.4.3).

ghost use Rattle.std.specs.Prelude.{◌≡◌, ◌==◌, ◌&&◌, [], IfOk};
ghost use Rattle.pw_check_state.specs.Follows.{Follows, Leads};
ghost use Rattle.pw_check_state.specs.PhraseViews.{view_bindings, view_parameters};
ghost use Rattle.pw_check_state.specs.StateViews.{view_state};
ghost use Rattle.pw_check_declarator.specs.Declaring as turns;
ghost use Rattle.pw_check_declarator.specs.Views.{view_parameter_list, view_step};
ghost use Rattle.pw_check_rules.specs.Leaves as leaves;
ghost use Rattle.pw_check_rules.specs.Phrases as spec;
ghost use Rattle.pw_tree.specs.Views as tree;
ghost use Rattle.pw_types.specs.Views.{view_types};
ghost use Rattle.pw_check_walk.specs.Walks.{pure};

use crate::steps::Step;
use pw_check_leaves::{bindings_rule, parameter_rule, parameter_storage};
use pw_check_state::{Bindings, Derivation, Parameter, Phrases, State, first_of_declaration};
use pw_check_types::copy_qtype;
use pw_check_walk::CheckFault;
use pw_types::QType;
use std::alloc::{AllocError, Global};

/// The types of parameters.
fn parameter_types(alloc: Global, parameters: &[Parameter]) -> Result<Vec<QType>, AllocError>
    ensures { IfOk result (λ types. view_types types.items ≡ leaves.parameter_types (view_parameters parameters.now)) }
{
    let mut types = Vec::new(alloc);
    for parameter in parameters {
        types.push(copy_qtype(alloc, &parameter.ty)?)?;
    }
    Ok(types)
}

/// Whether a parameter is the only one: none stands before it, and so many behind it.
#[tactic(auto, using(crate::proofs::Lists::nil_shown))]
fn is_sole(before: &[Parameter], behind: usize) -> bool
    ensures { result ≡ (leaves.is_nil (view_parameters before.now) && behind == 0) }
{
    before.is_empty() && behind == 0
}

/// A parameter behind those before; `sole` says whether it is the only one.
fn parameter<'a, P: Phrases<'a>>(
    alloc: Global,
    phrases: &P,
    state: &mut State<'a>,
    sole: bool,
    next: &'a pw_tree::Parameter,
    before: Vec<Parameter<'a>>,
) -> Result<Vec<Parameter<'a>>, CheckFault>
    requires { P.can_check phrases.now }
    ensures { Leads view_parameter_list (turns.one_parameter sole (tree.view_specifiers next.now.specifiers.items) (tree.view_declarator next.now.declarator) (view_parameter_list before.entry)) (view_state state.old) result (view_state state.new) }
{
    let specifiers = next.specifiers.as_slice();
    let first = first_of_declaration(specifiers, &next.declarator);
    let specified = phrases.specifiers(alloc, state, specifiers, first)?;
    parameter_storage(state, &specified)?;
    let declared = phrases.declarator(alloc, state, &next.declarator)?;
    parameter_rule(alloc, state, sole, &specified, declared, before)
}

/// The parameters of a list.
fn parameters<'a, P: Phrases<'a>>(
    alloc: Global,
    phrases: &P,
    state: &mut State<'a>,
    list: &'a [pw_tree::Parameter],
) -> Result<Vec<Parameter<'a>>, CheckFault>
    requires { P.can_check phrases.now }
    ensures { Leads view_parameter_list (spec.parameters_rule (tree.view_parameters list.now) []) (view_state state.old) result (view_state state.new) }
{
    let mut found = Vec::new(alloc);
    for (index, next) in list.iter().enumerate() {
        let sole = is_sole(&found, list.len() - index - 1);
        found = parameter(alloc, phrases, state, sole, next, found)?;
    }
    Ok(found)
}

/// What a list of parameters declares.
fn within_list<'a, P: Phrases<'a>>(
    alloc: Global,
    phrases: &P,
    state: &mut State<'a>,
    list: &'a [pw_tree::Parameter],
) -> Result<Bindings<'a>, CheckFault>
    requires { P.can_check phrases.now }
    ensures { Leads view_bindings (turns.within_list (tree.view_parameters list.now)) (view_state state.old) result (view_state state.new) }
{
    let found = parameters(alloc, phrases, state, list)?;
    bindings_rule(alloc, state, found)
}

/// The same in a scope of its own.
fn listed<'a, P: Phrases<'a>>(
    alloc: Global,
    phrases: &P,
    state: &mut State<'a>,
    list: &'a [pw_tree::Parameter],
) -> Result<Bindings<'a>, CheckFault>
    requires { P.can_check phrases.now }
    ensures { Leads view_bindings (turns.listed_rule (tree.view_parameters list.now)) (view_state state.old) result (view_state state.new) }
{
    state.one_deeper()?;
    let bindings = within_list(alloc, phrases, state, list)?;
    state.leave_scope();
    Ok(bindings)
}

/// The step that a list of parameters is.
#[tactic(auto, unfolding(pw_check_walk::specs::Walks::outcome))]
fn function_step<'a>(
    alloc: Global,
    state: &State<'a>,
    bindings: Bindings<'a>,
) -> Result<Step<'a>, CheckFault>
    ensures { Follows view_step (pure (turns.function_step (view_bindings bindings.entry))) (view_state state.now) result }
{
    let _state = state;
    let types = parameter_types(alloc, bindings.parameters.as_slice())?;
    Ok(Step {
        derivation: Derivation::ToFunction(types),
        bindings: Some(bindings),
    })
}

/// A function by its list of parameters.
pub fn prototype<'a, P: Phrases<'a>>(
    alloc: Global,
    phrases: &P,
    state: &mut State<'a>,
    list: &'a [pw_tree::Parameter],
) -> Result<Step<'a>, CheckFault>
    requires { P.can_check phrases.now }
    ensures { Leads view_step (turns.prototype_rule (tree.view_parameters list.now)) (view_state state.old) result (view_state state.new) }
{
    let bindings = listed(alloc, phrases, state, list)?;
    function_step(alloc, state, bindings)
}
