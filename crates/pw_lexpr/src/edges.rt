//! What of an expression is evaluated first.

ghost use Rattle.std.specs.Prelude.{◌≡◌, ◌<◌, ◌≤◌, All, IfOk, IfSome, map, option_map, None};
ghost use Rattle.std.specs.Option.{option_copied};
ghost use Rattle.pw_lexpr.specs.Finish as spec;
ghost use Rattle.pw_lower.specs.Codes.{lowered_as};
ghost use Rattle.pw_lower.specs.Expressions.{lower};
ghost use Rattle.pw_lower.specs.Expressions as lowering;
ghost use Rattle.pw_lower.specs.declared.code.Code.{Code};
ghost use Rattle.pw_typed.specs.Views.{view_expr, view_form};
ghost use Rattle.pw_typed.specs.declared.tree.TForm.{size-TForm};

use pw_typed::{TExpr, TForm, first_operand};
use pw_types::is_record;
use pw_value::NoMemory;
use std::alloc::Global;

/// What gives the address of a scalar lvalue; None where it is known by itself.
#[tactic(auto, unfolding(pw_typed::specs::Views::view_form, pw_types::specs::Views::view_type), using(pw_typed::proofs::Rows::call_view, pw_typed::proofs::Rows::call_value_view, pw_types::proofs::ViewLemmas::signature_view))]
fn address_in(a: &TExpr) -> Option<&TExpr>
    ensures first { option_map view_expr (option_copied result) ≡ spec.address_in (view_form a.now.form) }
    ensures smaller { IfSome (option_copied result) (λ b. size-TForm b.form < size-TForm a.now.form) }
{
    match &a.form {
        TForm::Member(inner, _) | TForm::Deref(inner) => Some(inner),
        _ => None,
    }
}

/// What gives the value of an lvalue's address; None where it is known by itself.
#[tactic(auto, unfolding(pw_typed::specs::Views::view_form, pw_types::specs::Views::view_type), using(pw_typed::proofs::Rows::call_view, pw_typed::proofs::Rows::call_value_view, pw_types::proofs::ViewLemmas::signature_view))]
fn addressed_in(a: &TExpr) -> Option<&TExpr>
    ensures first { option_map view_expr (option_copied result) ≡ spec.addressed_in (view_expr a.now) }
    ensures smaller { IfSome (option_copied result) (λ b. size-TForm b.form ≤ size-TForm a.now.form) }
{
    match &a.form {
        TForm::Local(_) | TForm::Global(_) => None,
        TForm::Member(inner, _) | TForm::Deref(inner) => Some(inner),
        _ => Some(a),
    }
}

/// The part of an expression that is evaluated first: its first operand, but of a scalar that is
/// written and of an lvalue whose address is taken what gives the address.
#[tactic(auto, unfolding(pw_typed::specs::Views::view_form, pw_types::specs::Views::view_type), using(pw_typed::proofs::Rows::call_view, pw_typed::proofs::Rows::call_value_view, pw_types::proofs::ViewLemmas::signature_view))]
pub fn first_evaluated(e: &TExpr) -> Option<&TExpr>
    ensures first { option_map view_expr (option_copied result) ≡ spec.first_part (view_expr e.now) }
    ensures smaller { IfSome (option_copied result) (λ a. size-TForm a.form < size-TForm e.now.form) }
{
    match &e.form {
        TForm::Assign(a, _) if is_record(&e.ty.ty) => Some(a),
        TForm::Assign(a, _) | TForm::Compound(_, _, a, _) | TForm::Step(_, a) => address_in(a),
        TForm::Address(a) => addressed_in(a),
        _ => first_operand(e),
    }
}

/// What is evaluated first of an expression, what is evaluated first of that, and so on.
pub fn edge_below<'a>(alloc: Global, e: &'a TExpr) -> Result<Vec<&'a TExpr>, NoMemory>
    ensures all { IfOk result (λ nodes. (h : lowering.Home) (c : Code)
        → spec.finish_node h (view_expr e.now) (spec.finish_all h (map (λ node. view_expr node.now) nodes.items) (lowered_as None c)) ≡ lower h (view_expr e.now) c) }
    ensures smaller { IfOk result (λ nodes. All (λ node. size-TForm node.now.form < size-TForm e.now.form) nodes.items) }
{
    let mut nodes = Vec::new(alloc);
    let mut node = e;
    while let Some(first) = first_evaluated(node) {
        nodes.push(first)?;
        node = first;
    }
    Ok(nodes)
}
