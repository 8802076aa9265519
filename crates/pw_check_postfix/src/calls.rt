//! Calls (C90 6.3.2.2).

ghost use Rattle.std.specs.Prelude.{◌≡◌, IfOk, map, option_map};
ghost use Rattle.pw_check_state.specs.Follows.{Follows};
ghost use Rattle.pw_check_state.specs.StateViews.{view_state};
ghost use Rattle.pw_check_state.specs.Views.{view_node, view_operand};
ghost use Rattle.pw_check_postfix.specs.Calls as calls;
ghost use Rattle.pw_check_rules.specs.Kinds as kinds;
ghost use Rattle.pw_check_rules.specs.Operands as operands;
ghost use Rattle.pw_check_rules.specs.Operators as spec;
ghost use Rattle.pw_typed.specs.Views.{view_expr, view_exprs, view_symbol};
ghost use Rattle.pw_types.specs.Views.{view_qtype, view_type, view_types};

use pw_check_operands::{is_assignable, target_type};
use pw_check_state::{Operand, State, typing, value_operand};
use pw_check_types::{
    copy_type, count_of_types, plain, points_to_function, same_type, signature_in, unqualified,
};
use pw_check_walk::CheckFault;
use pw_typed::{Symbol, TExpr, TForm};
use pw_types::{CType, QType};
use std::alloc::{AllocError, Global};

/// The parameters of a function; another type has none.
#[tactic(auto, using(crate::proofs::CallLemmas::no_parameters))]
fn parameters_of(ty: &CType) -> &[QType]
    ensures { view_types result.now ≡ kinds.parameters_of (view_type ty.now) }
{
    match signature_in(ty) {
        Some(signature) => signature.params.as_slice(),
        None => &[],
    }
}

/// The type of what a function returns, as a value; of another type the type itself.
#[tactic(auto, using(crate::proofs::CallLemmas::no_result))]
fn copy_result(alloc: Global, ty: &CType) -> Result<QType, AllocError>
    ensures { IfOk result (λ q. view_qtype q ≡ kinds.unqualified (kinds.result_of (view_type ty.now))) }
{
    match signature_in(ty) {
        Some(signature) => unqualified(alloc, &signature.result),
        None => Ok(plain(copy_type(alloc, ty)?)),
    }
}

/// Whether each argument can be assigned to its parameter.
fn arguments_fit(alloc: Global, parameters: &[QType], args: &[TExpr]) -> Result<bool, AllocError>
    ensures { IfOk result (λ fits. fits ≡ spec.arguments_fit (view_types parameters.now) (map view_expr args.now)) }
{
    let mut rest = args;
    for parameter in parameters {
        let Some((e, behind)) = rest.split_first() else {
            return Ok(true);
        };
        if !is_assignable(alloc, &parameter.ty, e)? {
            return Ok(false);
        }
        rest = behind;
    }
    Ok(true)
}

/// An argument in the type of its parameter.
#[tactic(auto, unfolding(pw_typed::specs::Views::view_form, pw_types::specs::Views::view_type))]
fn cast_argument(alloc: Global, ty: &CType, e: TExpr) -> Result<TExpr, AllocError>
    ensures { IfOk result (λ made. view_expr made ≡ operands.cast_to (view_type ty.now) (view_expr e)) }
{
    if same_type(ty, &e.ty.ty) {
        return Ok(e);
    }
    let token = e.token;
    let ty = plain(copy_type(alloc, ty)?);
    let form = TForm::Cast(Box::new(alloc, e)?);
    Ok(TExpr { token, ty, form })
}

/// The arguments in the types of their parameters.
#[tactic(auto, using(crate::proofs::CallLemmas::put_push, crate::proofs::CallLemmas::put_end))]
fn arguments_cast(
    alloc: Global,
    parameters: &[QType],
    args: Vec<TExpr>,
) -> Result<Vec<TExpr>, AllocError>
    ensures { IfOk result (λ made. view_exprs made.items ≡ spec.arguments_cast (view_types parameters.now) (map view_expr args.items)) }
{
    let mut made = Vec::new(alloc);
    let mut left = parameters;
    for e in args {
        match left.split_first() {
            Some((parameter, behind)) => {
                made.push(cast_argument(alloc, &parameter.ty, e)?)?;
                left = behind;
            }
            None => made.push(e)?,
        }
    }
    Ok(made)
}

/// The function whose address a value is, where it is named directly, with its type.
#[tactic(auto, unfolding(pw_typed::specs::Views::view_form))]
fn named_function(e: &TExpr) -> Option<(&Symbol, &QType)>
    ensures { option_map calls.view_named result ≡ calls.named_function (view_expr e.now) }
{
    let TForm::Decay(inner) = &e.form else {
        return None;
    };
    match &inner.form {
        TForm::Function(symbol) => Some((symbol, &inner.ty)),
        _ => None,
    }
}

/// A call of a function that is named directly.
#[tactic(auto, unfolding(pw_typed::specs::Views::view_form, pw_types::specs::Views::view_type), using(pw_typed::proofs::Rows::call_view))]
fn named_call(
    alloc: Global,
    token: usize,
    symbol: &Symbol,
    function: &CType,
    args: Vec<TExpr>,
) -> Result<Operand, AllocError>
    ensures { IfOk result (λ a. view_operand a ≡ operands.value_operand (calls.named_call token (view_symbol symbol.now) (view_type function.now) (map view_expr args.items))) }
{
    let symbol = symbol.copy(alloc)?;
    let ty = copy_result(alloc, function)?;
    let cast = arguments_cast(alloc, parameters_of(function), args)?;
    value_operand(alloc, token, ty, TForm::Call(symbol, cast))
}

/// A call through a pointer to a function.
#[tactic(auto, unfolding(pw_typed::specs::Views::view_form, pw_types::specs::Views::view_type), using(pw_typed::proofs::Rows::call_value_view))]
fn value_call(
    alloc: Global,
    token: usize,
    e: Box<TExpr>,
    args: Vec<TExpr>,
) -> Result<Operand, AllocError>
    ensures { IfOk result (λ a. view_operand a ≡ operands.value_operand (calls.value_call token (view_node e) (map view_expr args.items))) }
{
    let function = target_type(&e.ty.ty);
    let ty = copy_result(alloc, function)?;
    let cast = arguments_cast(alloc, parameters_of(function), args)?;
    value_operand(alloc, token, ty, TForm::CallValue(e, cast))
}

/// A call's node: directly by the function's name, parentheses aside, or through a pointer.
#[tactic(auto, using(crate::proofs::CallLemmas::call_by))]
fn call_operand(
    alloc: Global,
    token: usize,
    e: Box<TExpr>,
    args: Vec<TExpr>,
) -> Result<Operand, AllocError>
    ensures { IfOk result (λ a. view_operand a ≡ operands.value_operand (spec.call_node token (view_node e) (map view_expr args.items))) }
{
    match named_function(&e) {
        Some((symbol, ty)) => named_call(alloc, token, symbol, &ty.ty, args),
        None => value_call(alloc, token, e, args),
    }
}

/// A call, with the values of its arguments.
#[tactic(auto, unfolding(pw_check_walk::specs::Walks::bind, pw_check_walk::specs::Walks::outcome, pw_check_rules::specs::Operators::call_rule))]
pub fn call_rule(
    alloc: Global,
    state: &State,
    token: usize,
    e: Box<TExpr>,
    args: Vec<TExpr>,
) -> Result<Operand, CheckFault>
    ensures { Follows view_operand (spec.call_rule token (view_node e) (map view_expr args.items)) (view_state state.now) result }
{
    if !points_to_function(&e.ty.ty) {
        return Err(typing(token));
    }
    let parameters = parameters_of(target_type(&e.ty.ty));
    if count_of_types(parameters) != args.len() {
        return Err(typing(token));
    }
    if !arguments_fit(alloc, parameters, &args)? {
        return Err(typing(token));
    }
    Ok(call_operand(alloc, token, e, args)?)
}
