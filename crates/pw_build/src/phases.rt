//! The first phases of all modules, in order.

ghost use Rattle.std.specs.Prelude.{◌≡◌, ◌++◌, ◌∷◌, [], None, Ok, Err, IfErr, IfOk, IfSome, IsErrAnd, OnErr, OnOk, Some, map};
ghost use Rattle.std.specs.List.{AllByRecursion};
ghost use Rattle.pw_flow.specs.ValidFlow.{IsValid};
ghost use Rattle.pw_front_end.specs.Places.{refusal_line};
ghost use Rattle.pw_build_objects.specs.Programs.{DeclaresMain};
ghost use Rattle.pw_law_main.specs.FromPhaseOne.FirstPhase.{compiled};
ghost use Rattle.pw_store_modules.specs.Views.{source};
ghost use Rattle.pw_build.specs.Builds.{first_phases, flows_of, limit_passed};
ghost use Rattle.pw_build.specs.Phases.{FaultsAs, FaultsOfPhase, IsLine, line_by, refused_line};

use crate::fault::{BuildFault, Unbuilt};
use pw_flow::FlowModule;
use pw_front_end::{FrontEndFault, Refusal, refusal_line};
use pw_law_main::{flow_graphs_declare_main, phase_one};
use pw_store_modules::Module;
use pw_value::limits::MODULE_LIMIT;
use pw_value::{LinkFault, What};
use std::alloc::{AllocError, Global};

/// That there are too many modules, where there are.
fn limit_passed(modules: &[Module]) -> Option<LinkFault>
    ensures { result ≡ limit_passed (map source modules.now) }
{
    let count = modules.len() as u64;
    if count > MODULE_LIMIT {
        return Some(LinkFault::TooMany(What::Modules, count));
    }
    None
}

/// The refusal of a module, with its line.
fn refused(alloc: Global, which: &Module, refusal: Refusal) -> Result<Unbuilt, AllocError>
    ensures fault { IfOk result (λ unbuilt. unbuilt.fault ≡ BuildFault.Refused which.now.name refusal) }
    ensures line { IfOk result (λ unbuilt. unbuilt.line ≡ Some (refusal_line which.now.text.items refusal)) }
{
    let line = refusal_line(alloc, which.text.as_slice(), &refusal)?;
    let name = which.name.copy(alloc)?;
    Ok(Unbuilt {
        fault: BuildFault::Refused(name, refusal),
        line: Some(line),
    })
}

/// The flow graph of a module.
fn flow_of(alloc: Global, which: &Module) -> Result<FlowModule, Unbuilt>
    ensures flow { IfOk result (λ flow. compiled which.now.name which.now.text.items ≡ Ok flow) }
    ensures lawful { IfOk result (λ flow. IsValid flow) }
    ensures declares { IfOk result (λ flow. DeclaresMain flow) }
    ensures fault { IfErr result (λ unbuilt. FaultsOfPhase which.now.name (compiled which.now.name which.now.text.items) unbuilt.fault) }
    ensures line { IfErr result (λ unbuilt. IsLine (line_by which.now.text.items (compiled which.now.name which.now.text.items) None) unbuilt.fault unbuilt.line) }
{
    flow_graphs_declare_main();
    match phase_one(alloc, &which.name, which.text.as_slice()) {
        Ok(flow) => Ok(flow),
        Err(FrontEndFault::Refused(refusal)) => Err(refused(alloc, which, refusal)?),
        Err(FrontEndFault::NoMemory) => Err(Unbuilt {
            fault: BuildFault::NoMemory,
            line: None,
        }),
    }
}

/// Puts a flow graph behind others.
fn push_flow(flows: &mut Vec<FlowModule>, flow: FlowModule) -> Result<(), AllocError>
    ensures { OnOk result (flows.new.items ≡ flows.old.items ++ flow ∷ []) }
{
    flows.push(flow)?;
    Ok(())
}

/// The flow graphs of modules, in their order; or the first that is refused.
fn flows_of(alloc: Global, modules: &[Module]) -> Result<Vec<FlowModule>, Unbuilt>
    ensures flows { IfOk result (λ flows. flows_of (map source modules.now) ≡ Ok flows.items) }
    ensures lawful { IfOk result (λ flows. AllByRecursion IsValid flows.items) }
    ensures declares { IfOk result (λ flows. AllByRecursion DeclaresMain flows.items) }
    ensures fault { IfErr result (λ unbuilt. FaultsAs (flows_of (map source modules.now)) unbuilt.fault) }
    ensures line { IfErr result (λ unbuilt. IsLine (refused_line (map source modules.now)) unbuilt.fault unbuilt.line) }
{
    let mut flows = Vec::new(alloc);
    let mut rest = modules;
    while let [which, after @ ..] = rest {
        push_flow(&mut flows, flow_of(alloc, which)?)?;
        rest = after;
    }
    Ok(flows)
}

/// The flow graphs of modules, in their order, where there are not too many modules and none is refused; or that there are too many, or
/// the first module that is refused, with the line.
pub fn first_phases(alloc: Global, modules: &[Module]) -> Result<Vec<FlowModule>, Unbuilt>
    ensures flows { IfOk result (λ flows. first_phases (map source modules.now) ≡ Ok flows.items) }
    ensures lawful { IfOk result (λ flows. AllByRecursion IsValid flows.items) }
    ensures declares { IfOk result (λ flows. AllByRecursion DeclaresMain flows.items) }
    ensures limit { IfSome (limit_passed (map source modules.now)) (λ fault. IsErrAnd result (λ unbuilt. unbuilt.fault ≡ BuildFault.LinkRefused fault)) }
    ensures fault { IfErr result (λ unbuilt. FaultsAs (first_phases (map source modules.now)) unbuilt.fault) }
    ensures line { IfErr result (λ unbuilt. IsLine (refused_line (map source modules.now)) unbuilt.fault unbuilt.line) }
{
    match limit_passed(modules) {
        Some(fault) => Err(Unbuilt {
            fault: BuildFault::LinkRefused(fault),
            line: None,
        }),
        None => flows_of(alloc, modules),
    }
}
