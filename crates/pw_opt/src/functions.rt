//! Optimising functions.

ghost use Rattle.std.specs.Prelude.{◌≡◌, ◌*◌, ◌≤◌, ◌↔◌, length, IsTrue, IfOk};
ghost use Rattle.std.specs.List.{AllByRecursion};
ghost use Rattle.pw_flow.specs.ValidFlow.{IsFunction};
ghost use Rattle.pw_opt_rules.specs.Optimised.{optimise_limit, IsOptimised, AreOptimised};

use crate::again::same_function;
use pw_flow::FlowFn;
use pw_items::Items;
use pw_opt_constants::Constants;
use pw_opt_copies::Originals;
use pw_opt_dead::remove_dead;
use pw_opt_places::Places;
use pw_opt_quiet::Quiet;
use pw_opt_rewrite::rewrite;
use pw_opt_rules::OPTIMISE_LIMIT;
use std::alloc::{AllocError as NoMemory, Global};

/// Whether a function is small enough.
fn is_small(f: &FlowFn) -> bool
    ensures { IsTrue result ↔ (f.now.temps * length f.now.blocks ≤ optimise_limit) }
{
    match u64::from(f.temps).checked_mul(f.blocks.len() as u64) {
        Some(places) => places <= OPTIMISE_LIMIT,
        None => false,
    }
}

/// The function optimised: constants, then copies, then dead operations. A large one stays.
fn optimise_function(
    alloc: Global,
    quiet: &Quiet<'_>,
    constants: &Constants,
    f: &FlowFn,
) -> Result<FlowFn, NoMemory>
    requires { IsFunction f.now }
    ensures { IfOk result (IsOptimised quiet.now.flow.now f.now) }
{
    let same = same_function(alloc, constants, f)?;
    if !is_small(f) {
        return Ok(same);
    }
    let places = Places::of(alloc, &same)?;
    let folded = rewrite(alloc, constants, &places, same)?;
    let originals = Originals::new(alloc, &folded)?;
    let copied = rewrite(alloc, &originals, &places, folded)?;
    let live = remove_dead(alloc, quiet, copied)?;
    Ok(live)
}

/// The optimised form of each function, in order.
pub(crate) fn optimise_functions(
    alloc: Global,
    quiet: &Quiet<'_>,
    constants: &Constants,
    functions: &[FlowFn],
) -> Result<Items<FlowFn>, NoMemory>
    requires { AllByRecursion IsFunction functions.now }
    ensures { IfOk result (AreOptimised quiet.now.flow.now functions.now) }
{
    let mut optimised = Items::new(alloc);
    for f in functions {
        optimised.push(optimise_function(alloc, quiet, constants, f)?)?;
    }
    Ok(optimised)
}
