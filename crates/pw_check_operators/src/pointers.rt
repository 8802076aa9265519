//! Pointers and what they point to (C90 6.3.3.2).

ghost use Rattle.std.specs.Prelude.{◌≡◌, IfOk};
ghost use Rattle.pw_check_state.specs.Follows.{Follows};
ghost use Rattle.pw_check_state.specs.StateViews.{view_state};
ghost use Rattle.pw_check_state.specs.Views.{view_node, view_operand};
ghost use Rattle.pw_check_rules.specs.Operators as spec;

use pw_check_operands::copy_target;
use pw_check_state::{Operand, State, boxed, typing, value_operand};
use pw_check_types::{boxed_copy, is_function, is_pointer, is_void, plain};
use pw_check_walk::CheckFault;
use pw_typed::{TExpr, TForm};
use pw_types::CType;
use std::alloc::{AllocError, Global};

/// What a pointer points to; it is an lvalue unless it is a function or void.
#[tactic(auto, unfolding(pw_typed::specs::Views::view_form, pw_types::specs::Views::view_type))]
pub fn deref(alloc: Global, token: usize, e: Box<TExpr>) -> Result<Operand, AllocError>
    ensures { IfOk result (λ a. view_operand a ≡ spec.deref token (view_node e)) }
{
    let ty = copy_target(alloc, &e.ty.ty)?;
    let lvalue = !is_function(&ty.ty) && !is_void(&ty.ty);
    let node = boxed(alloc, token, ty, TForm::Deref(e))?;
    Ok(Operand {
        node,
        lvalue,
        register: false,
    })
}

/// `*` before a pointer.
#[tactic(auto, unfolding(pw_check_walk::specs::Walks::bind, pw_check_walk::specs::Walks::outcome, pw_check_rules::specs::Operators::deref_rule))]
pub fn deref_rule(
    alloc: Global,
    state: &State,
    token: usize,
    e: Box<TExpr>,
) -> Result<Operand, CheckFault>
    ensures { Follows view_operand (spec.deref_rule token (view_node e)) (view_state state.now) result }
{
    if !is_pointer(&e.ty.ty) {
        return Err(typing(token));
    }
    Ok(deref(alloc, token, e)?)
}

/// `&` before a function, or before an lvalue of no object that is declared `register`.
#[tactic(auto, unfolding(pw_check_walk::specs::Walks::bind, pw_check_walk::specs::Walks::outcome, pw_check_rules::specs::Operators::address_rule, pw_typed::specs::Views::view_form, pw_types::specs::Views::view_type))]
pub fn address_rule(
    alloc: Global,
    state: &State,
    token: usize,
    a: Operand,
) -> Result<Operand, CheckFault>
    ensures { Follows view_operand (spec.address_rule token (view_operand a)) (view_state state.now) result }
{
    let has_address = is_function(&a.node.ty.ty) || (a.lvalue && !a.register);
    if !has_address {
        return Err(typing(token));
    }
    let ty = plain(CType::Pointer(boxed_copy(alloc, &a.node.ty)?));
    Ok(value_operand(alloc, token, ty, TForm::Address(a.node))?)
}
