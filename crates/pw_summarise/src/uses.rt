//! What the functions of a module use.

ghost use Rattle.std.specs.Prelude.{All, IfOk};
ghost use Rattle.std.specs.List.{AllZip};
ghost use Rattle.pw_flow.specs.ValidFlow.{IsFunction};
ghost use Rattle.pw_summarise.specs.Summarises.{IsUsesOf};

use crate::names::{Part, function_names};
use crate::shapes::called_shapes;
use crate::weights::references;
use pw_flow::FlowFn;
use pw_items::Items;
use pw_live_needs::need;
use pw_live_outline::laws::outlines_are_lawful;
use pw_live_outline::outline_of;
use pw_summary::Uses;
use std::alloc::{AllocError, Global};

/// What a lawful function uses.
fn uses_of(alloc: Global, function: &FlowFn) -> Result<Uses, AllocError>
    requires { IsFunction function.now }
    ensures { IfOk result (λ u. IsUsesOf function.now u) }
{
    outlines_are_lawful();
    let outline = outline_of(alloc, function)?;
    let need = need(alloc, &outline)?;
    Ok(Uses {
        calls: function_names(alloc, Part::Called, function)?,
        shapes: called_shapes(alloc, function)?,
        refs: references(alloc, function)?,
        need,
    })
}

/// What functions use, in their order.
pub(crate) fn all_uses(alloc: Global, functions: &[&FlowFn]) -> Result<Items<Uses>, AllocError>
    requires { All (λ f. IsFunction f.now) functions.now }
    ensures { IfOk result (λ v. AllZip (λ f u. IsUsesOf f.now u) functions.now v) }
{
    let mut all = Items::new(alloc);
    for function in functions {
        all.push(uses_of(alloc, function)?)?;
    }
    Ok(all)
}
