//! The first phase.

ghost use Rattle.std.specs.Prelude.{◌≡◌, IfOk};
ghost use Rattle.pw_flow.specs.ValidFlow.{IsValid};
ghost use Rattle.pw_phase_one.specs.FirstPhase.{AnswersPhaseOne, by_checking, compiled, error_of, told, typed_text};
ghost use Rattle.pw_check_rules.specs.Checks.{checked};
ghost use Rattle.pw_tree.specs.Views.{view_module};
ghost use Rattle.pw_typed.specs.Views as typed;

use crate::laws::flow_graphs_are_lawful;
use pw_check::check;
use pw_check_rules::checks_is_exact;
use pw_check_walk::{CheckFault, CheckKind};
use pw_flow::FlowModule;
use pw_front_end::{FrontEndFault, Refusal, front};
use pw_lstmt::lower_module;
use pw_tree::Module;
use pw_typed::TModule;
use pw_value::Name;
use std::alloc::Global;

/// Why the first phase gives no flow graph: the text is refused, or memory ran out.
pub type PhaseError = FrontEndFault;

/// How a fault of checking is told.
fn error_of(fault: CheckFault) -> PhaseError
    ensures { result ≡ error_of fault }
{
    match fault.kind {
        CheckKind::NoMemory => FrontEndFault::NoMemory,
        CheckKind::UnknownName
        | CheckKind::Redeclared
        | CheckKind::Typing
        | CheckKind::Constant
        | CheckKind::Unsupported(_)
        | CheckKind::Limit(_, _) => FrontEndFault::Refused(Refusal::Check(fault)),
    }
}

/// The typed tree of a tree; or the fault that checking finds.
fn typed_tree(alloc: Global, tree: &Module) -> Result<TModule, PhaseError>
    ensures { AnswersPhaseOne typed.view_module (told (checked (view_module tree.now))) result }
{
    checks_is_exact();
    match check(alloc, tree) {
        Ok(typed) => Ok(typed),
        Err(fault) => Err(error_of(fault)),
    }
}

/// The flow graph of a module, by its name and its tree.
fn compile(alloc: Global, name: &Name, tree: &Module) -> Result<FlowModule, PhaseError>
    ensures { AnswersPhaseOne (λ flow. flow) (by_checking name.now (checked (view_module tree.now))) result }
{
    match typed_tree(alloc, tree) {
        Ok(typed) => match lower_module(alloc, name, &typed) {
            Ok(flow) => Ok(flow),
            Err(_none) => Err(FrontEndFault::NoMemory),
        },
        Err(error) => Err(error),
    }
}

/// The typed tree of a module, by its text, which is tested as [`phase_one`] tests it.
///
/// # Errors
///
/// As [`phase_one`].
pub fn phase_typed(alloc: Global, text: &[u8]) -> Result<TModule, PhaseError>
    ensures { AnswersPhaseOne typed.view_module (typed_text text.now) result }
{
    match front(alloc, text) {
        Ok(tree) => typed_tree(alloc, &tree),
        Err(error) => Err(error),
    }
}

/// The flow graph of a module, by its name and its text, which is tested for lexing, for tokens that are left out, for
/// depth, for syntax and for the constraints of the language, in this order.
///
/// # Errors
///
/// `Refused` with what the first of these tests finds, or `NoMemory`.
pub fn phase_one(alloc: Global, name: &Name, text: &[u8]) -> Result<FlowModule, PhaseError>
    // The answer as a function of the name and the text, unless memory ran out.
    ensures function { AnswersPhaseOne (λ flow. flow) (compiled name.now text.now) result }

    // A flow graph that is given is lawful.
    ensures lawful { IfOk result (λ flow. IsValid flow) }
{
    flow_graphs_are_lawful();
    match front(alloc, text) {
        Ok(tree) => compile(alloc, name, &tree),
        Err(error) => Err(error),
    }
}
