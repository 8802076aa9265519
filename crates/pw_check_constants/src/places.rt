//! Address constants (ISO C90 6.4). Each form leads to one of its operands, so a loop goes down them.

ghost use Rattle.std.specs.Prelude.{◌≡◌, ◌+◌, ◌-◌, ◌≤◌, ◌^◌, max, IfOk, OnErr, Option, Some, option_and_then, option_map, unwrap_or};
ghost use Rattle.pw_check_constants.specs.Moves.{IsBelow, IsPartOf, moved_place, object_size, place_by, reversed, taken};
ghost use Rattle.pw_check_constants.specs.Views.{view_asked, view_place};
ghost use Rattle.pw_check_rules.specs.Constants as spec;
ghost use Rattle.pw_typed.specs.Views.{view_expr};
ghost use Rattle.pw_typed.specs.declared.tree.TForm.{size-TForm};
ghost use Rattle.pw_types.specs.Layouts.{size_of};
ghost use Rattle.pw_types.specs.Views.{view_type};

use crate::constants::constant_value;
use crate::moves::{Move, move_by, replay};
use crate::place::{Asked, Base, Place};
use pw_check_types::{is_pointer, kind_in, pointee};
use pw_typed::{TExpr, TForm};
use pw_types::{BinaryOperator, CType, Types, size};
use std::alloc::{AllocError, Global};

/// Where the place of an expression is to be sought: it is known, or it is that of an operand, or a move from that.
#[derive(Clone, Copy)]
pub enum Way<'t> {
    /// The place is known, or there is none.
    Ends(Option<Place<'t>>),
    /// The place is that of this operand, asked for so.
    Through(Asked, &'t TExpr),
    /// The place is a move from that of this operand, which is asked for so.
    Moves(Move, &'t TExpr, Asked),
}

/// The size of a type, where it has one; want of memory where it is 2^64 - 1 or more, which no type within the limits
/// comes to.
#[tactic(auto, using(crate::proofs::SizeLemmas::size_beyond))]
pub fn told_size(types: &Types, ty: &CType) -> Result<Option<u64>, AllocError>
    ensures told { IfOk result (λ bytes. bytes ≡ size_of types.now (view_type ty.now)) }
    ensures wants { OnErr result (2 ^ 64 - 1 ≤ unwrap_or (size_of types.now (view_type ty.now)) 0) }
{
    match size(types, ty) {
        Some(bytes) if bytes == u64::MAX => Err(AllocError),
        known => Ok(known),
    }
}

/// The size of what a pointer points to, where it has one, else 0; want of memory where it is 2^64 - 1 or more.
fn step_of(types: &Types, ty: &CType) -> Result<u64, AllocError>
    ensures told { IfOk result (λ bytes. bytes ≡ spec.step_of types.now (view_type ty.now)) }
    ensures wants { OnErr result (2 ^ 64 - 1 ≤ spec.step_of types.now (view_type ty.now)) }
{
    let size = match pointee(ty) {
        Some(target) => told_size(types, &target.ty)?,
        None => told_size(types, ty)?,
    };
    Ok(size.unwrap_or(0))
}

/// The place of an expression, which is asked for its value, as an address, or for the place that it denotes. None
/// where it is no address constant, or where a step leaves the object.
#[tactic(auto, using(crate::proofs::MoveLemmas::replayed_push))]
pub fn place_of<'t>(
    alloc: Global,
    types: &Types,
    asked: Asked,
    e: &'t TExpr,
) -> Result<Option<Place<'t>>, AllocError>
    ensures { IfOk result (λ place. option_map view_place place ≡ spec.place_of types.now (view_asked asked) (view_expr e.now)) }
{
    let mut moves = Vec::new(alloc);
    let mut asked = asked;
    let mut node = e;
    loop {
        match next_way(alloc, types, asked, node)? {
            Way::Ends(start) => return Ok(replay(moves, start)),
            Way::Through(next, inner) => {
                asked = next;
                node = inner;
            }
            Way::Moves(by, inner, next) => {
                moves.push(by)?;
                asked = next;
                node = inner;
            }
        }
    }
}

/// One step down an expression.
fn next_way<'t>(
    alloc: Global,
    types: &Types,
    asked: Asked,
    e: &'t TExpr,
) -> Result<Way<'t>, AllocError>
    ensures value { IfOk result (λ way. place_by types.now way ≡ spec.place_of types.now (view_asked asked) (view_expr e.now)) }
    ensures smaller { IfOk result (λ way. IsPartOf way e.now) }
{
    match asked {
        Asked::Place => place_way(types, e),
        Asked::Address => address_way(alloc, types, e),
    }
}

/// One step of an expression that is asked for the place that it denotes; want of memory where the size of the object is
/// 2^64 - 1 or more.
#[tactic(auto, unfolding(pw_typed::specs::Views::view_form, pw_check_rules::specs::Constants::place_of))]
fn place_way<'t>(types: &Types, e: &'t TExpr) -> Result<Way<'t>, AllocError>
    ensures value { IfOk result (λ way. place_by types.now way ≡ spec.place_of types.now spec.AsPlace (view_expr e.now)) }
    ensures smaller { IfOk result (λ way. IsPartOf way e.now) }
    ensures wants { OnErr result (2 ^ 64 - 1 ≤ object_size (spec.place_of types.now spec.AsPlace (view_expr e.now))) }
{
    match &e.form {
        TForm::Global(symbol) => {
            let size = told_size(types, &e.ty.ty)?;
            Ok(starts(Base::Named(symbol), size))
        }
        TForm::Function(symbol) => Ok(starts(Base::Named(symbol), Some(0))),
        TForm::Str(number) => {
            let size = told_size(types, &e.ty.ty)?;
            Ok(starts(Base::Text(*number), size))
        }
        TForm::Member(a, offset) => {
            Ok(Way::Moves(Move::On(u128::from(*offset)), a, Asked::Place))
        }
        TForm::Deref(a) => Ok(Way::Through(Asked::Address, a)),
        TForm::Number(_) | TForm::Local(_) | TForm::Unary(_, _) | TForm::Step(_, _) => {
            Ok(Way::Ends(None))
        }
        TForm::Binary(_, _, _) | TForm::Logic(_, _, _) | TForm::Cond(_, _, _) => {
            Ok(Way::Ends(None))
        }
        TForm::Comma(_, _) | TForm::Assign(_, _) | TForm::Compound(_, _, _, _) => {
            Ok(Way::Ends(None))
        }
        TForm::Cast(_) | TForm::Decay(_) | TForm::Address(_) => Ok(Way::Ends(None)),
        TForm::Call(_, _) | TForm::CallValue(_, _) => Ok(Way::Ends(None)),
    }
}

/// The start of an object or function.
fn starts<'t>(base: Base<'t>, size: Option<u64>) -> Way<'t>
    ensures { result ≡ Way.Ends (Some (record { base = base.entry; offset = 0; size = size })) }
{
    Way::Ends(Some(Place {
        base,
        offset: 0,
        size,
    }))
}

/// One step of an expression that is asked for its value, as an address.
#[tactic(auto, unfolding(pw_typed::specs::Views::view_form), using(crate::proofs::PlaceLemmas::by_address))]
fn address_way<'t>(alloc: Global, types: &Types, e: &'t TExpr) -> Result<Way<'t>, AllocError>
    ensures value { IfOk result (λ way. place_by types.now way ≡ spec.place_of types.now spec.AsAddress (view_expr e.now)) }
    ensures smaller { IfOk result (λ way. IsPartOf way e.now) }
{
    match &e.form {
        TForm::Decay(a) | TForm::Address(a) => Ok(Way::Through(Asked::Place, a)),
        TForm::Cast(a) => {
            if !is_pointer(&e.ty.ty) {
                return Ok(Way::Ends(None));
            }
            Ok(Way::Through(Asked::Address, a))
        }
        TForm::Binary(operator, a, b) => {
            if !is_pointer(&e.ty.ty) {
                return Ok(Way::Ends(None));
            }
            moved_way(alloc, types, *operator, a, b)
        }
        TForm::Number(_) | TForm::Str(_) | TForm::Local(_) => Ok(Way::Ends(None)),
        TForm::Global(_) | TForm::Function(_) | TForm::Unary(_, _) => Ok(Way::Ends(None)),
        TForm::Logic(_, _, _) | TForm::Cond(_, _, _) | TForm::Comma(_, _) => Ok(Way::Ends(None)),
        TForm::Assign(_, _) | TForm::Compound(_, _, _, _) | TForm::Step(_, _) => {
            Ok(Way::Ends(None))
        }
        TForm::Member(_, _) | TForm::Deref(_) => Ok(Way::Ends(None)),
        TForm::Call(_, _) | TForm::CallValue(_, _) => Ok(Way::Ends(None)),
    }
}

/// One step of a sum or a difference that is a pointer: a move from the operand that is one.
fn moved_way<'t>(
    alloc: Global,
    types: &Types,
    operator: BinaryOperator,
    a: &'t TExpr,
    b: &'t TExpr,
) -> Result<Way<'t>, AllocError>
    ensures value { IfOk result (λ way. place_by types.now way ≡ moved_place types.now operator (view_expr a.now) (view_expr b.now)) }
    ensures operand { IfOk result (λ way. IsBelow way (1 + max (size-TForm a.now.form) (size-TForm b.now.form))) }
{
    match operator {
        BinaryOperator::Add => {
            if is_pointer(&a.ty.ty) {
                let by = number_move(alloc, types, a, b)?;
                return Ok(Way::Moves(by, a, Asked::Address));
            }
            let by = number_move(alloc, types, b, a)?;
            Ok(Way::Moves(by, b, Asked::Address))
        }
        BinaryOperator::Subtract => {
            let by = number_move(alloc, types, a, b)?;
            Ok(Way::Moves(by.reversed(), a, Asked::Address))
        }
        BinaryOperator::Multiply | BinaryOperator::Divide | BinaryOperator::Remainder => {
            Ok(Way::Ends(None))
        }
        BinaryOperator::ShiftLeft | BinaryOperator::ShiftRight => Ok(Way::Ends(None)),
        BinaryOperator::Less | BinaryOperator::Greater => Ok(Way::Ends(None)),
        BinaryOperator::LessEqual | BinaryOperator::GreaterEqual => Ok(Way::Ends(None)),
        BinaryOperator::Equal | BinaryOperator::NotEqual => Ok(Way::Ends(None)),
        BinaryOperator::And | BinaryOperator::ExclusiveOr | BinaryOperator::Or => {
            Ok(Way::Ends(None))
        }
    }
}

/// The move of an address on by a constant number.
fn number_move(
    alloc: Global,
    types: &Types,
    address: &TExpr,
    number: &TExpr,
) -> Result<Move, AllocError>
    ensures on { IfOk result (λ by. (p : Option spec.Place) → option_and_then (taken by) p ≡ spec.moved_by spec.moved types.now (view_expr address.now) (view_expr number.now) p) }
    ensures back { IfOk result (λ by. (p : Option spec.Place) → option_and_then (taken (reversed by)) p ≡ spec.moved_by spec.moved_against types.now (view_expr address.now) (view_expr number.now) p) }
{
    let Some(count) = constant_value(alloc, number)? else {
        return Ok(Move::Nowhere);
    };
    let size = step_of(types, &address.ty.ty)?;
    Ok(move_by(kind_in(&number.ty.ty), size, count))
}

/// The address that an expression is. None where it is no address constant.
pub fn address_of<'t>(
    alloc: Global,
    types: &Types,
    e: &'t TExpr,
) -> Result<Option<Place<'t>>, AllocError>
    ensures { IfOk result (λ place. option_map view_place place ≡ spec.address_of types.now (view_expr e.now)) }
{
    place_of(alloc, types, Asked::Address, e)
}
