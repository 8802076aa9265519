//! Nodes and the values of operands (C90 6.2.2.1).

ghost use Rattle.std.specs.Prelude.{◌≡◌, IfOk};
ghost use Rattle.pw_check_rules.specs.Operands as operands;
ghost use Rattle.pw_check_rules.specs.Operators as spec;
ghost use Rattle.pw_check_state.specs.Follows.{Follows};
ghost use Rattle.pw_check_state.specs.StateViews.{view_state};
ghost use Rattle.pw_check_state.specs.Views.{view_node, view_node_at, view_operand};

use crate::operand::Operand;
use crate::state::State;
use pw_check_types::{copy_qtype, is_array, plain};
use pw_check_walk::{CheckFault, typing};
use pw_typed::{TExpr, TForm};
use pw_types::{CType, QType};
use std::alloc::{AllocError, Global};

/// The node of a form with its type, at the number of its token, in a box. Fails only for want of memory.
#[tactic(auto, unfolding(pw_typed::specs::Views::view_form, pw_types::specs::Views::view_type))]
pub fn boxed(alloc: Global, token: usize, ty: QType, form: TForm) -> Result<Box<TExpr>, AllocError>
    ensures { IfOk result (λ e. e.value ≡ record { token = token; ty = ty; form = form }) }
{
    Ok(Box::new(alloc, TExpr { token, ty, form })?)
}

/// An operand that is no lvalue, by its node.
#[tactic(auto, unfolding(pw_typed::specs::Views::view_form, pw_types::specs::Views::view_type))]
pub fn value_operand(
    alloc: Global,
    token: usize,
    ty: QType,
    form: TForm,
) -> Result<Operand, AllocError>
    ensures { IfOk result (λ a. view_operand a ≡ operands.value_operand (view_node_at token ty form)) }
{
    let node = boxed(alloc, token, ty, form)?;
    Ok(Operand {
        node,
        lvalue: false,
        register: false,
    })
}

/// The value of an operand (C90 6.2.2.1): an array that is an lvalue becomes the address of its first element, and a
/// function its address.
#[tactic(auto, unfolding(pw_typed::specs::Views::view_form, pw_types::specs::Views::view_type), using(pw_types::proofs::ViewLemmas::signature_view))]
fn value_of(alloc: Global, a: Operand) -> Result<Box<TExpr>, AllocError>
    ensures { IfOk result (λ e. view_node e ≡ operands.value_of (view_operand a)) }
{
    let target = match &a.node.ty.ty {
        CType::Array(element, _) => {
            if !a.lvalue {
                return Ok(a.node);
            }
            copy_qtype(alloc, element)?
        }
        CType::Function(_) => copy_qtype(alloc, &a.node.ty)?,
        CType::Void | CType::Int(_) | CType::Pointer(_) | CType::Record(_) => return Ok(a.node),
    };
    let target = Box::new(alloc, target)?;
    let token = a.node.token;
    boxed(
        alloc,
        token,
        plain(CType::Pointer(target)),
        TForm::Decay(a.node),
    )
}

/// The value of an operand, which an array that is declared `register` has not.
#[tactic(auto, unfolding(pw_check_walk::specs::Walks::bind, pw_check_walk::specs::Walks::outcome, pw_check_rules::specs::Operators::value_rule))]
pub fn value_rule(alloc: Global, state: &State, a: Operand) -> Result<Box<TExpr>, CheckFault>
    ensures { Follows view_node (spec.value_rule (view_operand a)) (view_state state.now) result }
{
    if a.register && is_array(&a.node.ty.ty) {
        return Err(typing(a.node.token));
    }
    Ok(value_of(alloc, a)?)
}
