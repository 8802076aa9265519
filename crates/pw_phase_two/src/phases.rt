//! The second phase.

ghost use Rattle.std.specs.Prelude.{◌≡◌, IfOk};
ghost use Rattle.std.specs.List.{AllByRecursion};
ghost use Rattle.pw_flow.specs.ValidFlow.{IsValid};
ghost use Rattle.pw_flow.specs.FlowGraph.{named_in};
ghost use Rattle.pw_object.specs.Functions as object;
ghost use Rattle.pw_object.specs.Object.{IsObject, object_version};
ghost use Rattle.pw_summarise.specs.Summarises.{IsOrdered};
ghost use Rattle.pw_phase_two.specs.Origins.{IsOriginOf};
ghost use Rattle.pw_phase_two.specs.Phases.{AreDirectivesOf, IsObjectOf, all_compiled};

use crate::compiling::compile_all;
use crate::origin::{Origin, origin_of};
use pw_db::Directives;
use pw_flow::{FlowGlobal, FlowModule, copy_globals};
use pw_items::Items;
use pw_object::{Object, ObjectFn, VERSION};
use pw_summarise::{Interface, interface_of};
use pw_value::Name;
use std::alloc::{AllocError, Global};

/// The functions of a lawful module as words, under their directives.
fn functions_of(
    alloc: Global,
    flow: &FlowModule,
    directives: &[(Name, Directives)],
) -> Result<Items<ObjectFn>, AllocError>
    requires lawful { IsValid flow.now }
    requires directives { AreDirectivesOf flow.now directives.now }
    ensures functions { IfOk result (λ made. made ≡ all_compiled flow.now.functions directives.now) }
    ensures lawful { IfOk result (λ made. AllByRecursion object.IsFunction made) }
{
    compile_all(alloc, flow.functions.as_slice(), directives)
}

/// The object of a module of this name, with its parts.
fn object_with(
    name: Name,
    interface: Interface,
    globals: Items<FlowGlobal>,
    functions: Items<ObjectFn>,
    origin: Origin,
) -> Object
    ensures version { result.version ≡ object_version }
    ensures of_module { result.«module» ≡ name }
    ensures flow { result.flow ≡ origin.flow.items }
    ensures directives { result.directives ≡ origin.directives.items }
    ensures declared { result.declared ≡ interface.declared }
    ensures used { result.used ≡ interface.used }
    ensures globals { result.globals ≡ globals }
    ensures functions { result.functions ≡ functions }
{
    let Interface { declared, used } = interface;
    Object {
        version: VERSION,
        module: name,
        flow: Items::from_vec(origin.flow),
        directives: Items::from_vec(origin.directives),
        declared,
        used,
        globals,
        functions,
    }
}

/// The object of a lawful module under the directives of its functions, which keeps the rules of its file. The module's name
/// and its global objects go over into the object. What it declares and uses, and its origin, are made by the caller: a build
/// has the one from the module's summary, and has compared the other with what stands in a kept object.
pub fn object_of(
    alloc: Global,
    flow: FlowModule,
    interface: Interface,
    directives: &[(Name, Directives)],
    origin: Origin,
) -> Result<Object, AllocError>
    requires lawful { IsValid flow }
    requires declared { IsOrdered (λ d. d.0) flow.declared interface.declared }
    requires used { IsOrdered (λ name. name) (named_in flow) interface.used }
    requires directives { AreDirectivesOf flow directives.now }
    requires origin { IsOriginOf flow directives.now origin }
    ensures object { IfOk result (λ o. IsObjectOf flow directives.now o) }
    ensures lawful { IfOk result (λ o. IsObject o) }
{
    let functions = functions_of(alloc, &flow, directives)?;
    let FlowModule { name, globals, .. } = flow;
    Ok(object_with(name, interface, globals, functions, origin))
}

/// The object of a lawful module under the directives of its functions, which keeps the rules of its file. The module stays
/// with the caller.
pub fn phase_two(
    alloc: Global,
    flow: &FlowModule,
    directives: &[(Name, Directives)],
) -> Result<Object, AllocError>
    requires lawful { IsValid flow.now }
    requires directives { AreDirectivesOf flow.now directives.now }
    ensures object { IfOk result (λ o. IsObjectOf flow.now directives.now o) }
    ensures lawful { IfOk result (λ o. IsObject o) }
{
    let origin = origin_of(alloc, flow, directives)?;
    let interface = interface_of(alloc, flow)?;
    let functions = functions_of(alloc, flow, directives)?;
    let name = flow.name.copy(alloc)?;
    let globals = copy_globals(alloc, flow.globals.as_slice())?;
    Ok(object_with(name, interface, globals, functions, origin))
}
