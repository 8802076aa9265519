//! The forms of expressions that have no operand behind the part that is evaluated first.

ghost use Rattle.std.specs.Prelude.{◌≡◌, IfOk};
ghost use Rattle.pw_lower.specs.Codes.{constant, lowered_as, temp_of};
ghost use Rattle.pw_lower.specs.Expressions as spec;
ghost use Rattle.pw_lower.specs.Operators.{kind_of as kind, unary_on as unary};
ghost use Rattle.pw_lower.specs.Places.{place_at};
ghost use Rattle.pw_lower_forms.specs.Homes.{view_home};
ghost use Rattle.pw_lower_forms.specs.Steps as steps;
ghost use Rattle.pw_typed.specs.Views.{view_expr, view_form, view_symbol};
ghost use Rattle.pw_types.specs.FullNames as symbols;
ghost use Rattle.pw_types.specs.TypedTrees as tree;
ghost use Rattle.pw_types.specs.Views.{view_type, view_qtype};

use crate::home::{Home, place_of};
use crate::names::{full_name, hidden_name};
use crate::stores::{Working, scalar_kind, updated};
use crate::targets::{
    address_of_local, further, read, target_of_local, value_at, value_of_global, value_of_local,
};
use pw_lower::operators::{converted, is_behind, kind_of, step_side, unary_on};
use pw_lower::{Code, Target};
use pw_typed::{StepOperator, Symbol, TExpr, TForm, UnaryOperator};
use pw_types::{CType, is_void, step_operator};
use pw_value::NoMemory;
use std::alloc::Global;

/// Where a scalar lvalue is, behind what gives its address.
#[tactic(auto, unfolding(pw_typed::specs::Views::view_form), using(pw_typed::proofs::Rows::call_view, pw_typed::proofs::Rows::call_value_view))]
pub fn target_at(
    alloc: Global,
    home: Home,
    a: &TExpr,
    first: Option<u32>,
    code: &mut Code,
) -> Result<Target, NoMemory>
    ensures { IfOk result (λ target. spec.still target code.new
        ≡ steps.target_at (view_home home.entry) (view_form a.now.form) (lowered_as first code.old)) }
{
    match &a.form {
        TForm::Local(local) => target_of_local(place_of(home.places, *local), code),
        TForm::Global(symbol) => Ok(Target::Named(full_name(alloc, home.name, symbol)?)),
        TForm::Member(_, offset) => {
            let address = further(*offset, first, code)?;
            Ok(Target::Led(address.unwrap_or(0)))
        }
        TForm::Deref(_) => Ok(Target::Led(first.unwrap_or(0))),
        _ => Ok(Target::Kept(0)),
    }
}

/// The address of an lvalue, behind what gives it.
#[tactic(auto, unfolding(pw_typed::specs::Views::view_form), using(pw_typed::proofs::Rows::call_view, pw_typed::proofs::Rows::call_value_view))]
fn address(
    alloc: Global,
    home: Home,
    a: &TExpr,
    first: Option<u32>,
    code: &mut Code,
) -> Result<Option<u32>, NoMemory>
    ensures { IfOk result (λ t. lowered_as t code.new
        ≡ steps.address_at (view_home home.entry) (view_form a.now.form) (lowered_as first code.old)) }
{
    match &a.form {
        TForm::Local(k) => Ok(Some(address_of_local(place_of(home.places, *k), code)?)),
        TForm::Global(symbol) => {
            let name = full_name(alloc, home.name, symbol)?;
            Ok(Some(code.global_address(name)?))
        }
        TForm::Member(_, offset) => further(*offset, first, code),
        _ => Ok(first),
    }
}

/// A number.
fn number(n: u32, code: &mut Code) -> Result<Option<u32>, NoMemory>
    ensures { IfOk result (λ t. lowered_as t code.new ≡ constant n code.old) }
{
    Ok(Some(code.constant(n)?))
}

/// The address of a string.
fn string(alloc: Global, home: Home, k: u32, code: &mut Code) -> Result<Option<u32>, NoMemory>
    ensures { IfOk result (λ t. lowered_as t code.new
        ≡ spec.address_of_global (symbols.full_name home.entry.name.now (tree.Hidden k)) code.old) }
{
    let name = hidden_name(alloc, home.name, k)?;
    Ok(Some(code.global_address(name)?))
}

/// The value of a local of a type.
fn local(home: Home, ty: &CType, k: u32, code: &mut Code) -> Result<Option<u32>, NoMemory>
    ensures { IfOk result (λ t. lowered_as t code.new
        ≡ spec.value_of_local (kind (view_type ty.now)) (place_at home.entry.places.now k) code.old) }
{
    let place = place_of(home.places, k);
    Ok(Some(value_of_local(kind_of(ty), place, code)?))
}

/// The value of a global of a type.
fn global(
    alloc: Global,
    home: Home,
    ty: &CType,
    symbol: &Symbol,
    code: &mut Code,
) -> Result<Option<u32>, NoMemory>
    ensures { IfOk result (λ t. lowered_as t code.new
        ≡ spec.value_of_global (kind (view_type ty.now)) (symbols.full_name home.entry.name.now (view_symbol symbol.now)) code.old) }
{
    let name = full_name(alloc, home.name, symbol)?;
    Ok(Some(value_of_global(kind_of(ty), name, code)?))
}

/// The address of a function.
fn function(
    alloc: Global,
    home: Home,
    symbol: &Symbol,
    code: &mut Code,
) -> Result<Option<u32>, NoMemory>
    ensures { IfOk result (λ t. lowered_as t code.new
        ≡ spec.address_of_function (symbols.full_name home.entry.name.now (view_symbol symbol.now)) code.old) }
{
    let name = full_name(alloc, home.name, symbol)?;
    Ok(Some(code.function_address(name)?))
}

/// A unary operator behind its operand.
fn unary_behind(
    operator: UnaryOperator,
    first: Option<u32>,
    code: &mut Code,
) -> Result<Option<u32>, NoMemory>
    ensures { IfOk result (λ t. lowered_as t code.new ≡ unary operator (temp_of (lowered_as first code.old)) code.old) }
{
    Ok(Some(unary_on(operator, first.unwrap_or(0), code)?))
}

/// The value of a member, behind what gives the address of the record.
fn member(
    ty: &CType,
    offset: u32,
    first: Option<u32>,
    code: &mut Code,
) -> Result<Option<u32>, NoMemory>
    ensures { IfOk result (λ t. lowered_as t code.new
        ≡ spec.value_at (kind (view_type ty.now)) (spec.further offset (lowered_as first code.old))) }
{
    let address = further(offset, first, code)?;
    value_at(kind_of(ty), address, code)
}

/// `++` or `--` behind what its operand wants.
fn step(
    alloc: Global,
    home: Home,
    operator: StepOperator,
    ty: &CType,
    a: &TExpr,
    first: Option<u32>,
    code: &mut Code,
) -> Result<Option<u32>, NoMemory>
    ensures { IfOk result (λ t. lowered_as t code.new
        ≡ steps.stepped (view_home home.entry) operator (view_type ty.now) (view_expr a.now) (lowered_as first code.old)) }
{
    let own = scalar_kind(ty);
    let target = target_at(alloc, home, a, first, code)?;
    let old = read(alloc, own, &target, code)?;
    let one = code.constant(1)?;
    let working = Working {
        operator: step_operator(operator),
        side: step_side(home.types, ty)?,
        right: None,
    };
    let new = updated(working, own, target, old, Some(one), code)?;
    if is_behind(operator) {
        Ok(Some(old))
    } else {
        Ok(new)
    }
}

/// A conversion of a value from one type to another.
fn cast(
    from: &CType,
    to: &CType,
    value: Option<u32>,
    code: &mut Code,
) -> Result<Option<u32>, NoMemory>
    ensures { IfOk result (λ t. lowered_as t code.new
        ≡ spec.cast_to (view_type to.now) (view_type from.now) (lowered_as value code.old)) }
{
    if is_void(to) {
        return Ok(None);
    }
    converted(kind_of(from), kind_of(to), value, code)
}

/// An expression of a form that has no operand behind the part that is evaluated first; of other forms,
/// the value of that part.
#[tactic(auto, unfolding(pw_typed::specs::Views::view_form), using(pw_typed::proofs::Rows::call_view, pw_typed::proofs::Rows::call_value_view))]
pub fn alone(
    alloc: Global,
    home: Home,
    e: &TExpr,
    first: Option<u32>,
    code: &mut Code,
) -> Result<Option<u32>, NoMemory>
    ensures { IfOk result (λ t. lowered_as t code.new
        ≡ steps.alone (view_home home.entry) (view_qtype e.now.ty) (view_form e.now.form) (lowered_as first code.old)) }
{
    let ty = &e.ty.ty;
    match &e.form {
        TForm::Number(n) => number(*n, code),
        TForm::Str(k) => string(alloc, home, *k, code),
        TForm::Local(k) => local(home, ty, *k, code),
        TForm::Global(symbol) => global(alloc, home, ty, symbol, code),
        TForm::Function(symbol) => function(alloc, home, symbol, code),
        TForm::Unary(operator, _) => unary_behind(*operator, first, code),
        TForm::Step(operator, a) => step(alloc, home, *operator, ty, a, first, code),
        TForm::Cast(a) => cast(&a.ty.ty, ty, first, code),
        TForm::Member(_, offset) => member(ty, *offset, first, code),
        TForm::Deref(_) => value_at(kind_of(ty), first, code),
        TForm::Address(a) => address(alloc, home, a, first, code),
        TForm::Decay(_) | TForm::Binary(_, _, _) | TForm::Logic(_, _, _) => Ok(first),
        TForm::Cond(_, _, _) | TForm::Comma(_, _) | TForm::Assign(_, _) => Ok(first),
        TForm::Compound(_, _, _, _) | TForm::Call(_, _) | TForm::CallValue(_, _) => Ok(first),
    }
}
