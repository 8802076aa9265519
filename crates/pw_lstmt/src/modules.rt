//! Lowering of modules.

ghost use Rattle.std.specs.Prelude.{◌≡◌, ◌++◌, IfOk, map};
ghost use Rattle.pw_lower.specs.Modules as spec;
ghost use Rattle.pw_typed.specs.Views.{view_function, view_module};

use crate::functions::lower_function;
use pw_flow::{FlowFn, FlowModule};
use pw_items::Items;
use pw_lower_places::{has_main, lower_declared, lower_globals, start_function};
use pw_typed::{TFunction, TModule};
use pw_types::Types;
use pw_value::{Name, NoMemory};
use std::alloc::Global;

/// The flow graphs of functions, and behind them what the program starts with, where one is `main`.
fn lower_functions(
    alloc: Global,
    name: &Name,
    types: &Types,
    all: &[TFunction],
) -> Result<Items<FlowFn>, NoMemory>
    ensures { IfOk result (λ v. v
        ≡ map (spec.lowered_function name.now types.now) (map view_function all.now) ++ spec.start_of (map view_function all.now)) }
{
    let mut functions = Items::new(alloc);
    for f in all {
        functions.push(lower_function(alloc, name, types, f)?)?;
    }
    if has_main(all) {
        functions.push(start_function(alloc)?)?;
    }
    Ok(functions)
}

/// The flow graph of a module.
#[tactic(auto, unfolding(pw_lower::specs::Modules::lowered))]
pub fn lower_module(alloc: Global, name: &Name, module: &TModule) -> Result<FlowModule, NoMemory>
    ensures { IfOk result (λ m. m ≡ spec.lowered name.now (view_module «module».now)) }
{
    let types = &module.types;
    Ok(FlowModule {
        name: name.copy(alloc)?,
        globals: lower_globals(alloc, name, types, &module.globals)?,
        functions: lower_functions(alloc, name, types, &module.functions)?,
        declared: lower_declared(alloc, types, &module.declared)?,
    })
}
