//! Constants that lengths and enumerators are (C90 6.4, 6.5.2.2, 6.5.4.2).

ghost use Rattle.std.specs.Prelude.{◌≡◌};
ghost use Rattle.pw_check_state.specs.Follows.{Follows};
ghost use Rattle.pw_check_state.specs.StateViews.{view_state};
ghost use Rattle.pw_check_state.specs.Views.{view_node};
ghost use Rattle.pw_check_rules.specs.Leaves as spec;
ghost use Rattle.pw_types.specs.Views.{view_type};

use pw_check_constants::constant_value;
use pw_check_state::{State, fault};
use pw_check_types::kind_in;
use pw_check_walk::{CheckFault, CheckKind};
use pw_typed::TExpr;
use pw_types::CType;
use pw_value::words::{INT_MAX, is_negative};
use std::alloc::Global;

/// Whether a number of the type is above 0.
fn is_positive(ty: &CType, n: u32) -> bool
    ensures { result ≡ spec.is_positive (view_type ty.now) n }
{
    n >= 1 && !is_negative(kind_in(ty).is_signed(), n)
}

/// Whether an `int` can hold a number of the type.
fn is_int(ty: &CType, n: u32) -> bool
    ensures { result ≡ spec.is_int (view_type ty.now) n }
{
    kind_in(ty).is_signed() || n <= INT_MAX
}

/// The length of an array, which is at least 1 (C90 6.5.4.2), by the expression's first token.
#[tactic(auto, unfolding(pw_check_walk::specs::Walks::bind, pw_check_walk::specs::Walks::outcome, pw_check_rules::specs::Leaves::length_rule))]
pub fn length_rule(
    alloc: Global,
    state: &State,
    first: usize,
    e: Box<TExpr>,
) -> Result<u32, CheckFault>
    ensures { Follows (λ n. n) (spec.length_rule first (view_node e)) (view_state state.now) result }
{
    match constant_value(alloc, &e)? {
        Some(n) if is_positive(&e.ty.ty, n) => Ok(n),
        _ => Err(fault(CheckKind::Constant, first)),
    }
}

/// The value of an enumerator, which is an `int` (C90 6.5.2.2), by the expression's first token.
#[tactic(auto, unfolding(pw_check_walk::specs::Walks::bind, pw_check_walk::specs::Walks::outcome, pw_check_rules::specs::Leaves::enumerator_value))]
pub fn enumerator_value(
    alloc: Global,
    state: &State,
    first: usize,
    e: Box<TExpr>,
) -> Result<u32, CheckFault>
    ensures { Follows (λ n. n) (spec.enumerator_value first (view_node e)) (view_state state.now) result }
{
    match constant_value(alloc, &e)? {
        Some(n) if is_int(&e.ty.ty, n) => Ok(n),
        _ => Err(fault(CheckKind::Constant, first)),
    }
}
