//! Integral constant expressions (ISO C90 6.4). A chain of operators may be longer than the stack is deep, so the first
//! operands are gone down by a loop.

ghost use Rattle.std.specs.Prelude.{◌≡◌, ◌&&◌, if◌then◌else◌, IfOk};
ghost use Rattle.pw_check_constants.specs.Frames.{binary_of, cast_of, constancy_by, IsPartOf, LeadsTo};
ghost use Rattle.pw_check_constants.specs.Views.{view_constancy};
ghost use Rattle.pw_check_rules.specs.Constants as spec;
ghost use Rattle.pw_check_rules.specs.Kinds as kinds;
ghost use Rattle.pw_typed.specs.Views.{view_expr};
ghost use Rattle.pw_types.specs.Conversions.{is_signed_kind};
ghost use Rattle.pw_types.specs.WellTyped.{type_in};

use crate::constancy::Constancy;
use crate::frames::{Frame, unwind};
use pw_check_types::{is_integral, kind_in};
use pw_typed::{TExpr, TForm};
use pw_types::{BinaryOperator, IntKind};
use std::alloc::{AllocError, Global};

/// Where the value of an expression is to be sought: it is known, or an operator makes it of the first operand.
#[derive(Clone, Copy)]
pub enum Turn<'a> {
    /// The value is known, or there is none.
    Ends(Constancy),
    /// The operator makes the value of that of this first operand.
    Goes(Frame, &'a TExpr),
}

/// Whether a typed expression is an integral constant expression (C90 6.4), and the word of its value where it is one
/// that has a value. Fails only for want of memory.
#[cycle(constants)]
#[tactic(auto, using(crate::proofs::FrameLemmas::unwound_push))]
pub fn constant_of(alloc: Global, e: &TExpr) -> Result<Constancy, AllocError>
    ensures { IfOk result (λ c. view_constancy c ≡ spec.constant_of (view_expr e.now)) }
{
    let mut frames = Vec::new(alloc);
    let mut node = e;
    loop {
        match next_turn(alloc, node)? {
            Turn::Ends(head) => return Ok(unwind(frames, head)),
            Turn::Goes(frame, first) => {
                frames.push(frame)?;
                node = first;
            }
        }
    }
}

/// One step down from a conversion to this type, which is no constant where its operand is of no integral type.
fn cast_turn<'a>(kind: IntKind, a: &'a TExpr) -> Turn<'a>
    ensures value { constancy_by result
        ≡ if kinds.is_integral (type_in (view_expr a.now)) then cast_of kind (spec.constant_of (view_expr a.now)) else spec.NoConstant }
    ensures down { LeadsTo result a.now }
{
    if !is_integral(&a.ty.ty) {
        return Turn::Ends(Constancy::NoConstant);
    }
    Turn::Goes(Frame::Cast(kind), a)
}

/// One step down from a binary operator to its first operand, with what the second is. No constant is made of operands
/// of which one is of no integral type.
#[cycle(constants)]
fn binary_turn<'a>(
    alloc: Global,
    operator: BinaryOperator,
    b: &TExpr,
    a: &'a TExpr,
) -> Result<Turn<'a>, AllocError>
    ensures value { IfOk result (λ way. constancy_by way
        ≡ if kinds.is_integral (type_in (view_expr a.now)) && kinds.is_integral (type_in (view_expr b.now)) then binary_of operator (is_signed_kind (kinds.kind_in (type_in (view_expr a.now)))) (spec.constant_of (view_expr a.now)) (spec.constant_of (view_expr b.now)) else spec.NoConstant) }
    ensures down { IfOk result (λ way. LeadsTo way a.now) }
{
    if !is_integral(&a.ty.ty) || !is_integral(&b.ty.ty) {
        return Ok(Turn::Ends(Constancy::NoConstant));
    }
    let signed = kind_in(&a.ty.ty).is_signed();
    let second = constant_of(alloc, b)?;
    Ok(Turn::Goes(Frame::Binary(operator, signed, second), a))
}

/// One step down the first operands, with the other operands of the node.
#[cycle(constants)]
#[tactic(auto, unfolding(pw_typed::specs::Views::view_form), using(crate::proofs::FrameLemmas::not_integral, crate::proofs::FrameLemmas::by_form, crate::proofs::FrameLemmas::part_below))]
fn next_turn<'a>(alloc: Global, e: &'a TExpr) -> Result<Turn<'a>, AllocError>
    ensures value { IfOk result (λ way. constancy_by way ≡ spec.constant_of (view_expr e.now)) }
    ensures smaller { IfOk result (λ way. IsPartOf way e.now) }
{
    if !is_integral(&e.ty.ty) {
        return Ok(Turn::Ends(Constancy::NoConstant));
    }
    match &e.form {
        TForm::Number(n) => Ok(Turn::Ends(Constancy::Known(*n))),
        TForm::Unary(operator, a) => {
            Ok(Turn::Goes(Frame::Unary(*operator, kind_in(&a.ty.ty)), a))
        }
        TForm::Cast(a) => Ok(cast_turn(kind_in(&e.ty.ty), a)),
        TForm::Binary(operator, a, b) => binary_turn(alloc, *operator, b, a),
        TForm::Logic(operator, a, b) => {
            let second = constant_of(alloc, b)?;
            Ok(Turn::Goes(Frame::Logic(*operator, second), a))
        }
        TForm::Cond(a, b, c) => {
            let second = constant_of(alloc, b)?;
            let third = constant_of(alloc, c)?;
            Ok(Turn::Goes(Frame::Choice(second, third), a))
        }
        TForm::Str(_) | TForm::Local(_) | TForm::Global(_) | TForm::Function(_) => {
            Ok(Turn::Ends(Constancy::NoConstant))
        }
        TForm::Comma(_, _) | TForm::Assign(_, _) | TForm::Compound(_, _, _, _) => {
            Ok(Turn::Ends(Constancy::NoConstant))
        }
        TForm::Step(_, _) | TForm::Decay(_) | TForm::Member(_, _) | TForm::Deref(_) => {
            Ok(Turn::Ends(Constancy::NoConstant))
        }
        TForm::Address(_) | TForm::Call(_, _) | TForm::CallValue(_, _) => {
            Ok(Turn::Ends(Constancy::NoConstant))
        }
    }
}

/// The value of a constant expression that has one.
pub fn constant_value(alloc: Global, e: &TExpr) -> Result<Option<u32>, AllocError>
    ensures { IfOk result (λ n. n ≡ spec.constant_value (view_expr e.now)) }
{
    match constant_of(alloc, e)? {
        Constancy::Known(n) => Ok(Some(n)),
        Constancy::NoConstant | Constancy::NoValue => Ok(None),
    }
}
