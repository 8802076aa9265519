//! The left edge of expressions. A chain of operators leans to the left, so what goes down an
//! expression goes down its first operands by a loop: a chain may be longer than the stack is deep.

ghost use Rattle.std.specs.Prelude.{◌≡◌, ◌<◌, IfOk, IfSome, map, option_map};
ghost use Rattle.std.specs.Option.{option_copied};
ghost use Rattle.pw_types.specs.Spines as spec;
ghost use Rattle.pw_typed.specs.Views.{view_expr};
ghost use Rattle.pw_typed.specs.declared.tree.TForm.{size-TForm};

use crate::tree::{TExpr, TForm};
use std::alloc::{AllocError, Global};

/// The operand that is evaluated first: None for a leaf and for a call of a function that is named
/// directly.
#[tactic(auto, unfolding(crate::specs::Views::view_form), using(crate::proofs::Rows::call_view, crate::proofs::Rows::call_value_view))]
pub fn first_operand(e: &TExpr) -> Option<&TExpr>
    ensures first { option_map view_expr (option_copied result) ≡ spec.first_of (view_expr e.now) }
    ensures smaller { IfSome (option_copied result) (λ a. size-TForm a.form < size-TForm e.now.form) }
{
    match &e.form {
        TForm::Number(_) | TForm::Str(_) | TForm::Local(_) => None,
        TForm::Global(_) | TForm::Function(_) | TForm::Call(_, _) => None,
        TForm::Unary(_, a) | TForm::Step(_, a) | TForm::Member(a, _) => Some(a),
        TForm::Cast(a) | TForm::Decay(a) | TForm::Deref(a) | TForm::Address(a) => Some(a),
        TForm::Binary(_, a, _) | TForm::Logic(_, a, _) | TForm::Compound(_, _, a, _) => Some(a),
        TForm::Comma(a, _) | TForm::Assign(a, _) | TForm::Cond(a, _, _) => Some(a),
        TForm::CallValue(a, _) => Some(a),
    }
}

/// The nodes of an expression along its left edge: itself, its first operand, and so on. What is made of
/// an expression behind its operands is made along them from the last one back.
pub fn spine<'a>(alloc: Global, e: &'a TExpr) -> Result<Vec<&'a TExpr>, AllocError>
    ensures { IfOk result (λ nodes. map (λ node. view_expr node.now) nodes.items ≡ spec.spine_of (view_expr e.now)) }
{
    let mut nodes = Vec::new(alloc);
    nodes.push(e)?;
    let mut node = e;
    while let Some(first) = first_operand(node) {
        nodes.push(first)?;
        node = first;
    }
    Ok(nodes)
}
