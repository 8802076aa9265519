//! Optimising modules.

ghost use Rattle.std.specs.Prelude.{IfOk};
ghost use Rattle.pw_flow.specs.ValidFlow.{IsValid};
ghost use Rattle.pw_opt_rules.specs.Optimised.{IsOptimisedModule};

use crate::functions::optimise_functions;
use pw_flow::{FlowModule, copy_globals};
use pw_items::Items;
use pw_opt_constants::Constants;
use pw_opt_quiet::Quiet;
use pw_value::copied_shapes;
use std::alloc::{AllocError as NoMemory, Global};

/// The module optimised: each of its functions that is small enough goes through three steps, constants, copies and dead
/// operations, and everything else stays.
///
/// # Errors
///
/// `NoMemory` where there is no memory for the module and for what is known of its temporaries.
pub fn optimise(alloc: Global, flow: &FlowModule) -> Result<FlowModule, NoMemory>
    requires { IsValid flow.now }
    ensures { IfOk result (IsOptimisedModule flow.now) }
{
    let quiet = Quiet::new(alloc, flow)?;
    let constants = Constants::new(alloc)?;
    let functions = optimise_functions(alloc, &quiet, &constants, flow.functions.as_slice())?;
    let globals = copy_globals(alloc, flow.globals.as_slice())?;
    let declared = Items::from_vec(copied_shapes(alloc, flow.declared.as_slice())?);
    let name = flow.name.copy(alloc)?;
    Ok(FlowModule {
        name,
        globals,
        functions,
        declared,
    })
}
