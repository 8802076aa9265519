//! Which expressions are evaluated at once.

ghost use Rattle.std.specs.Prelude.{◌≤◌, ◌↔◌, IsTrue};
ghost use Rattle.pw_typed.specs.Views.{view_expr};
ghost use Rattle.pw_interp_direct.specs.Direct.{IsDirect, HasDirectPlace};
ghost use Rattle.pw_interp_direct.specs.Heights.{height};

use pw_typed::{TExpr, TForm};

/// Whether the result of an expression is evaluated at once: nothing in it is called or chosen, and no node stands deeper than
/// so many; the expression's own is the first.
#[cycle(sizes)]
#[tactic(auto, unfolding(pw_typed::specs::Views::view_form, crate::specs::Direct::IsDirect, crate::specs::Heights::height))]
pub fn is_direct(e: &TExpr, depth: u32) -> bool
    ensures { IsTrue result ↔ (IsDirect (view_expr e.now) × height (view_expr e.now) ≤ depth) }
{
    if depth == 0 {
        return false;
    }
    match &e.form {
        TForm::Number(_) | TForm::Str(_) | TForm::Local(_) => true,
        TForm::Global(_) | TForm::Function(_) => true,
        TForm::Unary(_, a) | TForm::Cast(a) | TForm::Deref(a) => is_direct(a, depth - 1),
        TForm::Binary(_, a, b) => is_direct(a, depth - 1) && is_direct(b, depth - 1),
        TForm::Assign(a, b) | TForm::Compound(_, _, a, b) => {
            has_direct_place(a, depth - 1) && is_direct(b, depth - 1)
        }
        TForm::Step(_, a) | TForm::Member(a, _) => has_direct_place(a, depth - 1),
        TForm::Decay(a) | TForm::Address(a) => has_direct_place(a, depth - 1),
        TForm::Logic(_, _, _) | TForm::Cond(_, _, _) | TForm::Comma(_, _) => false,
        TForm::Call(_, _) | TForm::CallValue(_, _) => false,
    }
}

/// The same of the place that an lvalue denotes.
#[cycle(sizes)]
#[tactic(auto, unfolding(pw_typed::specs::Views::view_form, crate::specs::Direct::IsDirect, crate::specs::Heights::height))]
fn has_direct_place(e: &TExpr, depth: u32) -> bool
    ensures { IsTrue result ↔ (HasDirectPlace (view_expr e.now) × height (view_expr e.now) ≤ depth) }
{
    if depth == 0 {
        return false;
    }
    match &e.form {
        TForm::Str(_) | TForm::Local(_) | TForm::Global(_) | TForm::Function(_) => true,
        TForm::Deref(a) => is_direct(a, depth - 1),
        TForm::Member(a, _) => has_direct_place(a, depth - 1),
        _ => false,
    }
}
