//! `sizeof` (C90 6.3.3.4).

ghost use Rattle.std.specs.Prelude.{◌≡◌, IfOk, unwrap_or};
ghost use Rattle.pw_check_state.specs.Follows.{Follows};
ghost use Rattle.pw_check_state.specs.PhraseViews.{view_spot};
ghost use Rattle.pw_check_state.specs.StateViews.{view_state};
ghost use Rattle.pw_check_state.specs.Views.{view_operand};
ghost use Rattle.pw_check_rules.specs.Operands as operands;
ghost use Rattle.pw_check_rules.specs.Operators as spec;
ghost use Rattle.pw_types.specs.Layouts.{size_of};
ghost use Rattle.pw_types.specs.Views.{view_qtype, view_type};

use pw_check_constants::told_size;
use pw_check_limits::completed;
use pw_check_state::{Operand, Spot, State, typing, value_operand};
use pw_check_types::{is_complete, plain};
use pw_check_walk::{CheckFault, CheckKind};
use pw_typed::TForm;
use pw_types::{CType, IntKind, QType, Types};
use pw_value::words::word_of_u64;
use std::alloc::{AllocError, Global};

/// The size of a type as an operand of type unsigned int; want of memory where 32 bits cannot tell it, which no type
/// within the limits comes to.
#[tactic(auto, unfolding(pw_typed::specs::Views::view_form, pw_types::specs::Views::view_type))]
fn size_operand(
    alloc: Global,
    types: &Types,
    token: usize,
    ty: &CType,
) -> Result<Operand, AllocError>
    ensures { IfOk result (λ a. view_operand a ≡ operands.value_operand (spec.size_node token (unwrap_or (size_of types.now (view_type ty.now)) 0))) }
{
    let size = told_size(types, ty)?.unwrap_or(0);
    let number = word_of_u64(size)?;
    let form = TForm::Number(number);
    value_operand(alloc, token, plain(CType::Int(IntKind::UInt)), form)
}

/// `sizeof` of an expression.
#[tactic(auto, unfolding(pw_check_walk::specs::Walks::bind, pw_check_walk::specs::Walks::outcome, pw_check_rules::specs::Operators::size_rule))]
pub fn size_rule(
    alloc: Global,
    state: &State,
    token: usize,
    a: Operand,
) -> Result<Operand, CheckFault>
    ensures { Follows view_operand (spec.size_rule token (view_operand a)) (view_state state.now) result }
{
    let types = state.records();
    if !is_complete(types, &a.node.ty.ty) {
        return Err(typing(token));
    }
    Ok(size_operand(alloc, types, token, &a.node.ty.ty)?)
}

/// `sizeof` of a type, which the specifiers may have brought in.
#[tactic(auto, unfolding(pw_check_walk::specs::Walks::bind, pw_check_walk::specs::Walks::outcome, pw_check_rules::specs::Operators::type_size_rule))]
pub fn type_size_rule(
    alloc: Global,
    state: &State,
    token: usize,
    spot: &Spot,
    q: QType,
) -> Result<Operand, CheckFault>
    ensures { Follows view_operand (spec.type_size_rule token (view_spot spot.now) (view_qtype q)) (view_state state.now) result }
{
    let types = state.records();
    let at_operator = Spot {
        token,
        specifier: spot.specifier,
        tag: spot.tag,
    };
    completed(types, &at_operator, CheckKind::Typing, &q.ty).end()?;
    Ok(size_operand(alloc, types, token, &q.ty)?)
}
