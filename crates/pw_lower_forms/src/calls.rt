//! Calls, behind their arguments.

ghost use Rattle.std.specs.Prelude.{◌≡◌, if◌then◌else◌, None, IfOk};
ghost use Rattle.pw_lower.specs.Codes.{lowered_as, value_is, reserve_temps, temp_of};
ghost use Rattle.pw_lower.specs.Expressions as spec;
ghost use Rattle.pw_lower_forms.specs.Homes.{view_home};
ghost use Rattle.pw_lower_forms.specs.Steps as steps;
ghost use Rattle.pw_typed.specs.Views.{view_symbol};
ghost use Rattle.pw_types.specs.Views.{view_type, view_qtype};

use crate::home::Home;
use crate::names::full_name;
use pw_flow::Op;
use pw_items::Items;
use pw_lower::Code;
use pw_typed::Symbol;
use pw_types::{CType, QType, Types, is_void, shape};
use pw_value::{NoMemory, Shape};
use std::alloc::Global;

/// A new temporary for the result of a call, unless its type is void.
fn result_of(ty: &CType, code: &mut Code) -> Result<Option<u32>, NoMemory>
    ensures { IfOk result (λ t. lowered_as t code.new ≡ if spec.is_void (view_type ty.now) then lowered_as None code.old else value_is code.old.temps (reserve_temps 1 code.old)) }
{
    if is_void(ty) {
        return Ok(None);
    }
    Ok(Some(code.reserve_temps(1)?))
}

/// The shape of the function that a value of a type points to.
#[tactic(auto, unfolding(pw_types::specs::Views::view_type), using(pw_types::proofs::ViewLemmas::signature_view))]
fn shape_at(alloc: Global, types: &Types, ty: &QType) -> Result<Shape, NoMemory>
    ensures { IfOk result (λ shape. shape ≡ spec.shape_at types.now (view_qtype ty.now)) }
{
    match &ty.ty {
        CType::Pointer(target) => shape(alloc, types, target),
        _ => shape(alloc, types, ty),
    }
}

/// A call of a function that is named directly.
pub fn call_named(
    alloc: Global,
    home: Home,
    ty: &CType,
    symbol: &Symbol,
    args: Items<u32>,
    code: &mut Code,
) -> Result<Option<u32>, NoMemory>
    ensures { IfOk result (λ t. lowered_as t code.new
        ≡ steps.call_named (view_home home.entry) (view_type ty.now) (view_symbol symbol.now) (record { code = code.old; temps = args })) }
{
    let name = full_name(alloc, home.name, symbol)?;
    let result = result_of(ty, code)?;
    code.emit(Op::Call(result, name, args))?;
    Ok(result)
}

/// A call of the function that a value points to.
pub fn call_value(
    alloc: Global,
    home: Home,
    ty: &CType,
    pointer: &QType,
    value: Option<u32>,
    args: Items<u32>,
    code: &mut Code,
) -> Result<Option<u32>, NoMemory>
    ensures { IfOk result (λ t. lowered_as t code.new
        ≡ steps.call_value (view_home home.entry) (view_type ty.now) (view_qtype pointer.now) (lowered_as value code.old) (record { code = code.old; temps = args })) }
{
    let shape = shape_at(alloc, home.types, pointer)?;
    let result = result_of(ty, code)?;
    code.emit(Op::CallInd(result, value.unwrap_or(0), shape, args))?;
    Ok(result)
}
