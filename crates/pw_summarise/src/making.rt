//! The summary of a module.

ghost use Rattle.std.specs.Prelude.{◌≡◌, List, ℕ, map, All, IfOk};
ghost use Rattle.std.specs.List.{AllZip};
ghost use Rattle.pw_fields.specs.FieldNames.{IsTableOf};
ghost use Rattle.pw_flow.specs.FlowGraph.{named_in};
ghost use Rattle.pw_flow.specs.ValidFlow.{IsFunction, IsValid};
ghost use Rattle.pw_files.specs.Rising.{IsRising};
ghost use Rattle.pw_summary.specs.Summary.{IsSummary, IsVersioned};
ghost use Rattle.pw_summarise.specs.Summarises.{IsOrdered, addressed, in_module, taken_of, escaped_of, global_entry, function_entry, IsUsesOf, Summarises};

use crate::lists::{declared_of, function_entries, globals_of, sorted_functions};
use crate::names::{Part, module_names};
use crate::taken::{escaped, taken};
use crate::uses::all_uses;
use pw_flow::{FlowFn, FlowModule};
use pw_items::Items;
use pw_summary::{Defined, Summary, Used, VERSION, summary_of};
use pw_value::{Name, Shape};
use std::alloc::{AllocError, Global};

/// The external names that a module declares or defines, with their shapes, and those that its operations and items use, each
/// once and in byte order.
#[derive(Drop)]
pub struct Interface {
    pub declared: Items<(Name, Shape)>,
    pub used: Items<Name>,
}

/// What a lawful module declares and what it uses.
pub fn interface_of(alloc: Global, flow: &FlowModule) -> Result<Interface, AllocError>
    requires { IsValid flow.now }
    ensures declared { IfOk result (λ i. IsOrdered (λ d. d.0) flow.now.declared i.declared) }
    ensures used { IfOk result (λ i. IsOrdered (λ name. name) (named_in flow.now) i.used) }
{
    let declared = declared_of(alloc, flow.declared.as_slice())?;
    let used = module_names(alloc, Part::Named, flow)?;
    Ok(Interface { declared, used })
}

/// What a module defines, whose functions stand sorted beside it, with what it declares.
fn defined_of(
    alloc: Global,
    flow: &FlowModule,
    sorted: &[&FlowFn],
    declared: Items<(Name, Shape)>,
) -> Result<Defined, AllocError>
    requires { IsValid flow.now }
    ensures globals { IfOk result (λ d. IsOrdered (λ g. g.0) (map global_entry flow.now.globals) d.globals) }
    ensures functions { IfOk result (λ d. d.functions ≡ map (λ f. function_entry f.now) sorted.now) }
    ensures declared { IfOk result (λ d. d.declared ≡ declared) }
{
    let globals = globals_of(alloc, flow.globals.as_slice())?;
    let functions = function_entries(alloc, sorted)?;
    Ok(Defined {
        globals,
        functions,
        declared,
    })
}

/// What a module uses, whose functions stand sorted beside it: these names, and what its functions do with them.
fn used_of(
    alloc: Global,
    flow: &FlowModule,
    defined: &Defined,
    sorted: &[&FlowFn],
    used: Items<Name>,
) -> Result<Used, AllocError>
    requires functions { IsRising (map (λ f. f.0) defined.now.functions) }
    requires declared { IsRising (map (λ e. e.0) defined.now.declared) }
    requires lawful { All (λ f. IsFunction f.now) sorted.now }
    ensures used { IfOk result (λ u. u.used ≡ used) }
    ensures addresses { IfOk result (λ u. (names : List (List ℕ)) × IsTableOf names (in_module addressed flow.now)
        × (u.taken ≡ taken_of defined.now.functions defined.now.declared names)
        × (u.escaped ≡ escaped_of defined.now.functions defined.now.declared names)) }
    ensures uses { IfOk result (λ u. AllZip (λ f v. IsUsesOf f.now v) sorted.now u.uses) }
{
    let functions = defined.functions.as_slice();
    let declared = defined.declared.as_slice();
    let addressed = module_names(alloc, Part::Addressed, flow)?;
    let taken = taken(alloc, functions, declared, addressed.as_slice())?;
    let escaped = escaped(alloc, functions, declared, addressed.as_slice())?;
    let uses = all_uses(alloc, sorted)?;
    Ok(Used {
        used,
        taken,
        escaped,
        uses,
    })
}

/// The summary of a module with a lawful flow graph. A weight above 4,294,967,295 stands as that number.
pub fn summarise(alloc: Global, flow: &FlowModule) -> Result<Summary, AllocError>
    requires { IsValid flow.now }
    ensures summarises { IfOk result (λ s. Summarises flow.now s) }
    ensures lawful { IfOk result (λ s. IsSummary s) }
    ensures versioned { IfOk result (λ s. IsVersioned s) }
{
    let sorted = sorted_functions(alloc, flow.functions.as_slice())?;
    let interface = interface_of(alloc, flow)?;
    let defined = defined_of(alloc, flow, &sorted, interface.declared)?;
    let used = used_of(alloc, flow, &defined, &sorted, interface.used)?;
    let name = flow.name.copy(alloc)?;
    Ok(summary_of(VERSION, name, defined, used))
}
