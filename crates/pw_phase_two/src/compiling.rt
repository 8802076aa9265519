//! Functions as words.

ghost use Rattle.std.specs.Prelude.{◌≡◌, IfOk};
ghost use Rattle.std.specs.List.{AllByRecursion};
ghost use Rattle.pw_flow.specs.ValidFlow.{IsFunction};
ghost use Rattle.pw_db.specs.Database.{IsDirectives};
ghost use Rattle.pw_object.specs.Functions as object;
ghost use Rattle.pw_webflow.specs.Direction.{directed};
ghost use Rattle.pw_alloc_temps.specs.Temporaries.{allocated};
ghost use Rattle.pw_alloc.specs.ValidPlaces.{IsLocated};
ghost use Rattle.pw_phase_two.specs.Phases.{code_of, compiled, all_compiled};

use crate::numbers::numbers_fit;
use pw_alloc::Located;
use pw_allocate::allocate_owned;
use pw_db::Directives;
use pw_delay::{Code, place};
use pw_flow::FlowFn;
use pw_items::Items;
use pw_object::ObjectFn;
use pw_select::select;
use pw_value::Name;
use pw_webflow::direct;
use std::alloc::{AllocError, Global};

/// A function under its directives, with the places of its temporaries. Fails only for want of memory.
pub fn locate(alloc: Global, f: &FlowFn, d: &Directives) -> Result<Located, AllocError>
    requires function { IsFunction f.now }
    requires directives { IsDirectives d.now }
    ensures value { IfOk result (λ l. l ≡ allocated (directed f.now d.now)) }
    ensures lawful { IfOk result (λ l. IsLocated l) }
{
    let directed = direct(alloc, f, d)?;
    allocate_owned(alloc, directed)
}

/// The code of a function with places.
fn code_of(alloc: Global, located: &Located) -> Result<Code, AllocError>
    requires { IsLocated located.now }
    ensures { IfOk result (λ code. code ≡ code_of located.now) }
{
    let lines = select(alloc, located)?;
    place(alloc, lines.as_slice())
}

/// A function as words, under its directives.
fn made(alloc: Global, f: &FlowFn, d: &Directives) -> Result<ObjectFn, AllocError>
    requires function { IsFunction f.now }
    requires directives { IsDirectives d.now }
    ensures { IfOk result (λ r. r ≡ compiled f.now d.now) }
{
    let located = locate(alloc, f, d)?;
    let Code { words, fixes } = code_of(alloc, &located)?;
    Ok(ObjectFn {
        name: f.name.copy(alloc)?,
        frame: located.frame,
        words,
        fixes,
    })
}

/// A function as words that can stand in an object's file, under its directives.
fn compile(alloc: Global, f: &FlowFn, d: &Directives) -> Result<ObjectFn, AllocError>
    requires function { IsFunction f.now }
    requires directives { IsDirectives d.now }
    ensures value { IfOk result (λ r. r ≡ compiled f.now d.now) }
    ensures lawful { IfOk result (λ r. object.IsFunction r) }
{
    let made = made(alloc, f, d)?;
    numbers_fit(&made);
    Ok(made)
}

/// Functions as words, each under the directives that stand at its place.
pub fn compile_all(
    alloc: Global,
    functions: &[FlowFn],
    directives: &[(Name, Directives)],
) -> Result<Items<ObjectFn>, AllocError>
    requires functions { AllByRecursion IsFunction functions.now }
    requires directives { AllByRecursion (λ d. IsDirectives d.1) directives.now }
    ensures value { IfOk result (λ v. v ≡ all_compiled functions.now directives.now) }
    ensures lawful { IfOk result (λ v. AllByRecursion object.IsFunction v) }
{
    let mut compiled = Items::new(alloc);
    for (f, d) in functions.iter().zip(directives) {
        compiled.push(compile(alloc, f, &d.1)?)?;
    }
    Ok(compiled)
}
