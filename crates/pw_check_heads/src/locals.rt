//! What a function's definition has of its locals and labels.

ghost use Rattle.std.specs.Prelude.{◌≡◌, map, IfOk, OnErr};
ghost use Rattle.pw_check_state.specs.PhraseViews.{view_parameter, view_parameters};
ghost use Rattle.pw_check_rules.specs.Functions as spec;
ghost use Rattle.pw_check_rules.specs.Kinds as kinds;
ghost use Rattle.pw_typed.specs.Views as typed;
ghost use Rattle.pw_types.specs.Views.{view_qtype, view_type};

use pw_check_state::Parameter;
use pw_check_types::{copy_qtype, copy_type, is_const_object, plain};
use pw_tree::Word;
use pw_typed::Local;
use pw_types::{CType, QType};
use pw_value::Name;
use pw_value::words::word_of;
use std::alloc::{AllocError, Global};

/// The type that a function returns; of a type that is no function's it is that type.
#[tactic(auto, unfolding(pw_types::specs::Views::view_type), using(pw_types::proofs::ViewLemmas::signature_view))]
pub fn result_of(alloc: Global, ty: &CType) -> Result<QType, AllocError>
    ensures { IfOk result (λ q. view_qtype q ≡ kinds.result_of (view_type ty.now)) }
{
    match ty {
        CType::Function(signature) => copy_qtype(alloc, &signature.result),
        CType::Void | CType::Int(_) | CType::Pointer(_) | CType::Array(_, _) | CType::Record(_) => {
            Ok(plain(copy_type(alloc, ty)?))
        }
    }
}

/// The name of a parameter; one without a name, no rule lets come: it is want of memory.
fn parameter_word<'s>(parameter: &Parameter<'s>) -> Result<&'s Word, AllocError>
    ensures word { IfOk result (λ w. parameter.now.name ≡ Some w) }
    ensures wants { OnErr result (parameter.now.name ≡ None) }
{
    match parameter.name {
        Some(word) => Ok(word),
        None => Err(AllocError),
    }
}

/// A parameter as a local. One that no local may be named by, no rule lets come: it answers want of memory.
fn parameter_local(alloc: Global, parameter: &Parameter<'_>) -> Result<Local, AllocError>
    ensures { IfOk result (λ l. typed.view_local l ≡ spec.parameter_local (view_parameter parameter.now)) }
{
    let word = parameter_word(parameter)?;
    let name = Name::lawful(alloc, &word.text)?;
    Ok(Local {
        name,
        ty: copy_qtype(alloc, &parameter.ty)?,
        writable: !is_const_object(&parameter.ty),
    })
}

/// The parameters of a function's definition as its first locals, in order, each with its name and type; those of a
/// const type may not be written (C90 6.7.1).
pub fn parameter_locals(
    alloc: Global,
    parameters: &[Parameter<'_>],
) -> Result<Vec<Local>, AllocError>
    ensures { IfOk result (λ locals. typed.view_locals locals.items ≡ map spec.parameter_local (view_parameters parameters.now)) }
{
    let mut locals = Vec::new(alloc);
    for parameter in parameters {
        locals.push(parameter_local(alloc, parameter)?)?;
    }
    Ok(locals)
}

/// A copy of a local.
fn copy_local(alloc: Global, local: &Local) -> Result<Local, AllocError>
    ensures { IfOk result (λ copy. typed.view_local copy ≡ typed.view_local local.now) }
{
    Ok(Local {
        name: local.name.copy(alloc)?,
        ty: copy_qtype(alloc, &local.ty)?,
        writable: local.writable,
    })
}

/// Copies of locals, in order, with their names and types. Fails only for want of memory.
pub fn copy_locals(alloc: Global, locals: &[Local]) -> Result<Vec<Local>, AllocError>
    ensures { IfOk result (λ copies. typed.view_locals copies.items ≡ typed.view_locals locals.now) }
{
    let mut copies = Vec::new(alloc);
    for local in locals {
        copies.push(copy_local(alloc, local)?)?;
    }
    Ok(copies)
}

/// The numbers below a count. What 32 bits cannot count answers want of memory.
pub fn numbers_below(alloc: Global, count: usize) -> Result<Vec<u32>, AllocError>
    ensures { IfOk result (λ numbers. numbers.items ≡ spec.numbers_below count) }
{
    let count = word_of(count)?;
    let mut numbers = Vec::new(alloc);
    for number in 0..count {
        numbers.push(number)?;
    }
    Ok(numbers)
}
