//! Laws of the front end.

ghost use Rattle.std.specs.Prelude.{◌≡◌, ◌↔◌, ℕ, List, Err};
ghost use Rattle.pw_token.specs.Tokenization.{Lexes};
ghost use Rattle.pw_front_end.specs.Fronts.{FrontEnd, FrontEndAnswers, HoldsNoWant, front_end_of};
ghost use Rattle.pw_front_end.specs.Lexed.{LexAnswer, lexed};
ghost use Rattle.pw_front_end.specs.declared.refusal.Refusal.{Refusal};

use pw_parse_grammar::reading_is_exact;

/// The tokens or the fault that a text has by its cutting are those of the function.
pub fn lexed_is_exact()
    ensures { (text : List ℕ) (answer : LexAnswer) → Lexes text answer ↔ (answer ≡ lexed text) }
{}

/// A text has one answer, and it is that of the function. It is never want of memory.
pub fn front_is_exact()
    ensures exact { (text : List ℕ) (answer : FrontEnd) → FrontEndAnswers text answer ↔ (answer ≡ front_end_of text) }
    ensures no_want { (text : List ℕ) (refusal : Refusal) → front_end_of text ≡ Err refusal → HoldsNoWant refusal }
{
    reading_is_exact();
}
