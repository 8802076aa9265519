//! Lowering of expressions. A chain of operators leans to the left, so what is evaluated first is gone down
//! by a loop, and the operators are lowered on the way back.

ghost use Rattle.std.specs.Prelude.{◌≡◌, IfOk, OnOk};
ghost use Rattle.pw_lower.specs.Codes.{lowered_as, temp_of, cut_here};
ghost use Rattle.pw_lower.specs.Operators.{combined as combination};
ghost use Rattle.pw_lower.specs.Expressions as spec;
ghost use Rattle.pw_lower_forms.specs.Homes.{view_home};
ghost use Rattle.pw_lower_forms.specs.Steps as forms;
ghost use Rattle.pw_lexpr.specs.Finish as steps;
ghost use Rattle.pw_typed.specs.Views.{view_expr, view_exprs, view_form, view_symbol};
ghost use Rattle.pw_types.specs.Views.{view_type, view_qtype};

use crate::edges::edge_below;
use pw_flow::End;
use pw_items::Items;
use pw_lower::Code;
use pw_lower::operators::{combined, side_of};
use pw_lower_forms::Home;
use pw_lower_forms::alone::{alone, target_at};
use pw_lower_forms::calls::{call_named, call_value};
use pw_lower_forms::choices::{
    Choice, and_joined, cond_forked, cond_joined, cond_turned, fork, or_forked, or_joined,
};
use pw_lower_forms::stores::{copied, scalar_kind, stored, updated, working_in};
use pw_lower_forms::targets::read;
use pw_typed::{BinaryOperator, LogicOperator, Symbol, TExpr, TForm};
use pw_types::{CType, QType, is_record};
use pw_value::NoMemory;
use std::alloc::Global;

/// The temporary of an expression's value; none where its type is void.
#[cycle(lower)]
pub fn lower(alloc: Global, home: Home, e: &TExpr, code: &mut Code) -> Result<Option<u32>, NoMemory>
    ensures { IfOk result (λ t. lowered_as t code.new ≡ spec.lower (view_home home.entry) (view_expr e.now) code.old) }
{
    let mut below = edge_below(alloc, e)?;
    let mut first = None;
    while let Some(node) = below.pop() {
        first = finish(alloc, home, node, first, code)?;
    }
    finish(alloc, home, e, first, code)
}

/// An expression, behind the part of it that is evaluated first.
#[cycle(lower)]
#[tactic(auto, unfolding(pw_typed::specs::Views::view_form, crate::specs::Finish::finish), using(pw_typed::proofs::Rows::call_view, pw_typed::proofs::Rows::call_value_view))]
fn finish(
    alloc: Global,
    home: Home,
    e: &TExpr,
    first: Option<u32>,
    code: &mut Code,
) -> Result<Option<u32>, NoMemory>
    ensures { IfOk result (λ t. lowered_as t code.new
        ≡ steps.finish (view_home home.entry) (view_qtype e.now.ty) (view_form e.now.form) (lowered_as first code.old)) }
{
    let ty = &e.ty.ty;
    match &e.form {
        TForm::Binary(operator, a, b) => binary(alloc, home, *operator, b, &a.ty.ty, first, code),
        TForm::Logic(operator, _, b) => logic(alloc, home, *operator, b, first, code),
        TForm::Cond(_, a, b) => {
            let ways = chosen(alloc, home, a, ty, first, code)?;
            otherwise(alloc, home, b, ty, ways, code)
        }
        TForm::Comma(_, b) => lower(alloc, home, b, code),
        TForm::Assign(a, b) => assign(alloc, home, b, a, ty, first, code),
        TForm::Compound(operator, work, a, b) => {
            compound(alloc, home, b, (*operator, work), a, ty, first, code)
        }
        TForm::Call(symbol, args) => named(alloc, home, args, ty, symbol, code),
        TForm::CallValue(a, args) => through(alloc, home, args, ty, &a.ty, first, code),
        _ => alone(alloc, home, e, first, code),
    }
}

/// A binary operator on operands of two types, whose values stand in two temporaries.
fn both(
    home: Home,
    operator: BinaryOperator,
    types: (&CType, &CType),
    first: Option<u32>,
    second: Option<u32>,
    code: &mut Code,
) -> Result<Option<u32>, NoMemory>
    ensures { IfOk result (λ t. lowered_as t code.new
        ≡ combination home.entry.types.now operator (view_type types.entry.0.now) (view_type types.entry.1.now)
        (temp_of (lowered_as first code.old)) (temp_of (lowered_as second code.old)) code.old) }
{
    let left = side_of(home.types, types.0)?;
    let right = side_of(home.types, types.1)?.size;
    let first = first.unwrap_or(0);
    let second = second.unwrap_or(0);
    Ok(Some(combined(operator, left, right, first, second, code)?))
}

/// A binary operator and its right operand, behind a left operand of a type.
#[cycle(lower)]
fn binary(
    alloc: Global,
    home: Home,
    operator: BinaryOperator,
    b: &TExpr,
    left: &CType,
    first: Option<u32>,
    code: &mut Code,
) -> Result<Option<u32>, NoMemory>
    ensures { IfOk result (λ t. lowered_as t code.new
        ≡ steps.on_both (view_home home.entry) operator (view_type left.now) (view_expr b.now) (lowered_as first code.old)) }
{
    let second = lower(alloc, home, b, code)?;
    both(home, operator, (left, &b.ty.ty), first, second, code)
}

/// `&&` and `||` behind their left operand.
#[cycle(lower)]
fn logic(
    alloc: Global,
    home: Home,
    operator: LogicOperator,
    b: &TExpr,
    first: Option<u32>,
    code: &mut Code,
) -> Result<Option<u32>, NoMemory>
    ensures { IfOk result (λ t. lowered_as t code.new
        ≡ steps.logical (view_home home.entry) operator (view_expr b.now) (lowered_as first code.old)) }
{
    match operator {
        LogicOperator::And => {
            let ways = fork(alloc, 1, first, code)?;
            let second = lower(alloc, home, b, code)?;
            and_joined(alloc, ways, second, code)
        }
        LogicOperator::Or => {
            let ways = or_forked(alloc, first, code)?;
            let second = lower(alloc, home, b, code)?;
            or_joined(alloc, ways, second, code)
        }
    }
}

/// `?:` of a type behind its first operand, up to its third.
#[cycle(lower)]
fn chosen(
    alloc: Global,
    home: Home,
    a: &TExpr,
    ty: &CType,
    first: Option<u32>,
    code: &mut Code,
) -> Result<Choice, NoMemory>
    ensures made { IfOk result (λ made. spec.fork (forms.results (view_type ty.now)) (lowered_as first code.old)
        ≡ record { code = (spec.fork (forms.results (view_type ty.now)) (lowered_as first code.old)).code; result = made.result; if_so = made.if_so; if_not = made.if_not; join = made.join }) }
    ensures code { IfOk result (λ made. code.new ≡ cut_here (End.Jump made.join) made.if_not (forms.given (view_type ty.now) made.result
        (spec.lower (view_home home.entry) (view_expr a.now) (spec.fork (forms.results (view_type ty.now)) (lowered_as first code.old)).code))) }
{
    let ways = cond_forked(alloc, ty, first, code)?;
    let value = lower(alloc, home, a, code)?;
    cond_turned(alloc, ty, ways, value, code)?;
    Ok(ways)
}

/// The third operand of `?:` of a type, and the end.
#[cycle(lower)]
fn otherwise(
    alloc: Global,
    home: Home,
    b: &TExpr,
    ty: &CType,
    ways: Choice,
    code: &mut Code,
) -> Result<Option<u32>, NoMemory>
    ensures { IfOk result (λ t. lowered_as t code.new
        ≡ forms.told (view_type ty.now) ways.result (cut_here (End.Jump ways.join) ways.join
        (forms.given (view_type ty.now) ways.result (spec.lower (view_home home.entry) (view_expr b.now) code.old)))) }
{
    let value = lower(alloc, home, b, code)?;
    cond_joined(alloc, ty, ways, value, code)
}

/// An assignment of a type to an lvalue, behind what that wants.
#[cycle(lower)]
fn assign(
    alloc: Global,
    home: Home,
    b: &TExpr,
    a: &TExpr,
    ty: &CType,
    first: Option<u32>,
    code: &mut Code,
) -> Result<Option<u32>, NoMemory>
    ensures { IfOk result (λ t. lowered_as t code.new
        ≡ steps.assigned (view_home home.entry) (view_type ty.now) (view_form a.now.form) (view_expr b.now) (lowered_as first code.old)) }
{
    if is_record(ty) {
        let from = lower(alloc, home, b, code)?;
        return Ok(Some(copied(home.types, ty, first.unwrap_or(0), from, code)?));
    }
    let target = target_at(alloc, home, a, first, code)?;
    let value = lower(alloc, home, b, code)?;
    stored(scalar_kind(ty), target, value, code)
}

/// The same with an operator, which works in a type.
#[cycle(lower)]
fn compound(
    alloc: Global,
    home: Home,
    b: &TExpr,
    work: (BinaryOperator, &CType),
    a: &TExpr,
    ty: &CType,
    first: Option<u32>,
    code: &mut Code,
) -> Result<Option<u32>, NoMemory>
    ensures { IfOk result (λ t. lowered_as t code.new
        ≡ steps.compounded (view_home home.entry) work.entry.0 (view_type work.entry.1.now) (view_type ty.now) (view_form a.now.form) (view_expr b.now) (lowered_as first code.old)) }
{
    let own = scalar_kind(ty);
    let target = target_at(alloc, home, a, first, code)?;
    let old = read(alloc, own, &target, code)?;
    let right = lower(alloc, home, b, code)?;
    let working = working_in(home.types, work.0, work.1, &b.ty.ty)?;
    updated(working, own, target, old, right, code)
}

/// A call of a function that is named directly, whose result has a type.
#[cycle(lower)]
fn named(
    alloc: Global,
    home: Home,
    args: &[TExpr],
    ty: &CType,
    symbol: &Symbol,
    code: &mut Code,
) -> Result<Option<u32>, NoMemory>
    ensures { IfOk result (λ t. lowered_as t code.new
        ≡ forms.call_named (view_home home.entry) (view_type ty.now) (view_symbol symbol.now) (spec.arguments (view_home home.entry) (view_exprs args.now) code.old)) }
{
    let temps = arguments(alloc, home, args, code)?;
    call_named(alloc, home, ty, symbol, temps, code)
}

/// The same of the function that a value of a type points to.
#[cycle(lower)]
fn through(
    alloc: Global,
    home: Home,
    args: &[TExpr],
    ty: &CType,
    pointer: &QType,
    value: Option<u32>,
    code: &mut Code,
) -> Result<Option<u32>, NoMemory>
    ensures { IfOk result (λ t. lowered_as t code.new
        ≡ forms.call_value (view_home home.entry) (view_type ty.now) (view_qtype pointer.now) (lowered_as value code.old) (spec.arguments (view_home home.entry) (view_exprs args.now) code.old)) }
{
    let temps = arguments(alloc, home, args, code)?;
    call_value(alloc, home, ty, pointer, value, temps, code)
}

/// The temporaries of the arguments of a call.
#[cycle(lower)]
fn arguments(
    alloc: Global,
    home: Home,
    args: &[TExpr],
    code: &mut Code,
) -> Result<Items<u32>, NoMemory>
    ensures { IfOk result (λ temps. record { code = code.new; temps = temps } ≡ spec.arguments (view_home home.entry) (view_exprs args.now) code.old) }
{
    let mut temps = Items::new(alloc);
    for arg in args {
        let temp = lower(alloc, home, arg, code)?;
        temps.push(temp.unwrap_or(0))?;
    }
    Ok(temps)
}
