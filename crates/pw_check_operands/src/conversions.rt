//! Conversions of operands (C90 6.2.1).

ghost use Rattle.std.specs.Prelude.{◌≡◌, IfOk};
ghost use Rattle.pw_check_state.specs.Views.{view_node};
ghost use Rattle.pw_check_rules.specs.Operands as spec;
ghost use Rattle.pw_typed.specs.Views.{view_expr};
ghost use Rattle.pw_types.specs.TypeTrees as tree;
ghost use Rattle.pw_types.specs.Views.{view_type};

use pw_check_state::boxed;
use pw_check_types::{copy_type, is_integral, is_kind, kind_in, plain, same_type};
use pw_typed::{TExpr, TForm};
use pw_types::{CType, IntKind, promote as promoted, usual};
use std::alloc::{AllocError, Global};

/// A conversion, where the types differ; it stands at the operand's token.
#[tactic(auto, unfolding(pw_typed::specs::Views::view_form, pw_types::specs::Views::view_type))]
pub fn cast_to(alloc: Global, ty: &CType, e: Box<TExpr>) -> Result<Box<TExpr>, AllocError>
    ensures { IfOk result (λ made. view_node made ≡ spec.cast_to (view_type ty.now) (view_node e)) }
{
    if same_type(ty, &e.ty.ty) {
        return Ok(e);
    }
    let token = e.token;
    let target = copy_type(alloc, ty)?;
    boxed(alloc, token, plain(target), TForm::Cast(e))
}

/// A conversion to an integer type, where the types differ.
#[tactic(auto, unfolding(pw_typed::specs::Views::view_form, pw_types::specs::Views::view_type))]
pub fn convert(alloc: Global, kind: IntKind, e: Box<TExpr>) -> Result<Box<TExpr>, AllocError>
    ensures { IfOk result (λ made. view_node made ≡ spec.cast_to (tree.Int kind) (view_node e)) }
{
    if is_kind(kind, &e.ty.ty) {
        return Ok(e);
    }
    let token = e.token;
    boxed(alloc, token, plain(CType::Int(kind)), TForm::Cast(e))
}

/// The integral promotion of an operand (C90 6.2.1.1); of no integral type it stays as it is.
#[tactic(auto, unfolding(pw_types::specs::Views::view_type), using(crate::proofs::CastLaws::promote_other, crate::proofs::CastLaws::promote_int))]
pub fn promote(alloc: Global, e: Box<TExpr>) -> Result<Box<TExpr>, AllocError>
    ensures { IfOk result (λ made. view_node made ≡ spec.promote (view_node e)) }
{
    if !is_integral(&e.ty.ty) {
        return Ok(e);
    }
    let kind = promoted(kind_in(&e.ty.ty));
    convert(alloc, kind, e)
}

/// The type that an operand has when it is promoted.
#[tactic(auto, unfolding(pw_types::specs::Views::view_type), using(crate::proofs::CastLaws::promotion_int, crate::proofs::CastLaws::promotion_other))]
pub fn promotion(alloc: Global, e: &TExpr) -> Result<CType, AllocError>
    ensures { IfOk result (λ ty. view_type ty ≡ spec.type_in (spec.promote (view_expr e.now))) }
{
    if is_integral(&e.ty.ty) {
        Ok(CType::Int(promoted(kind_in(&e.ty.ty))))
    } else {
        copy_type(alloc, &e.ty.ty)
    }
}

/// The integer type that two operands have in common (C90 6.2.1.5).
pub fn common_kind(a: &TExpr, b: &TExpr) -> IntKind
    ensures { tree.Int result ≡ spec.common_type (view_expr a.now) (view_expr b.now) }
{
    usual(kind_in(&a.ty.ty), kind_in(&b.ty.ty))
}
