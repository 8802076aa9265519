//! `?:` (C90 6.3.15).

ghost use Rattle.std.specs.Prelude.{◌≡◌, IfOk};
ghost use Rattle.pw_check_state.specs.Follows.{Follows};
ghost use Rattle.pw_check_state.specs.StateViews.{view_state};
ghost use Rattle.pw_check_state.specs.Views.{view_node, view_operand};
ghost use Rattle.pw_check_operators.specs.Choices.{conditional_operand};
ghost use Rattle.pw_check_rules.specs.Operators as spec;

use pw_check_operands::{cast_to, choice_type, fits_choice};
use pw_check_state::{Operand, State, typing, value_operand};
use pw_check_types::{is_scalar, plain};
use pw_check_walk::CheckFault;
use pw_typed::{TExpr, TForm};
use std::alloc::{AllocError, Global};

/// The choice, with both in the type of what is chosen.
#[tactic(auto, unfolding(pw_typed::specs::Views::view_form, pw_types::specs::Views::view_type))]
fn choice(
    alloc: Global,
    token: usize,
    condition: Box<TExpr>,
    a: Box<TExpr>,
    b: Box<TExpr>,
) -> Result<Operand, AllocError>
    ensures { IfOk result (λ made. view_operand made ≡ conditional_operand token (view_node condition) (view_node a) (view_node b)) }
{
    let ty = choice_type(alloc, &a, &b)?;
    let second = cast_to(alloc, &ty, a)?;
    let third = cast_to(alloc, &ty, b)?;
    let form = TForm::Cond(condition, second, third);
    value_operand(alloc, token, plain(ty), form)
}

/// `?:`, by its condition and what it chooses of.
#[tactic(auto, unfolding(pw_check_walk::specs::Walks::bind, pw_check_walk::specs::Walks::outcome, pw_check_rules::specs::Operators::conditional_rule))]
pub fn conditional_rule(
    alloc: Global,
    state: &State,
    token: usize,
    condition: Box<TExpr>,
    a: Box<TExpr>,
    b: Box<TExpr>,
) -> Result<Operand, CheckFault>
    ensures { Follows view_operand (spec.conditional_rule token (view_node condition) (view_node a) (view_node b)) (view_state state.now) result }
{
    if !is_scalar(&condition.ty.ty) {
        return Err(typing(token));
    }
    if !fits_choice(alloc, &a, &b)? {
        return Err(typing(token));
    }
    Ok(choice(alloc, token, condition, a, b)?)
}
