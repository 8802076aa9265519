//! Laws of expansion.

ghost use Rattle.std.specs.Prelude.{◌≡◌, ◌≤◌, ◌<◌, ℕ, List, [], All, length, map};
ghost use Rattle.pw_cpp_expand.specs.Expansion.{Done, Expands, Outcome, Stopped};
ghost use Rattle.pw_cpp_expand.specs.Lookahead.{Further, Lexeme, ReadsOn, Tokens, fresh};
ghost use Rattle.pw_cpp_expand.specs.Places.{AreReadFrom, IsFaultWithin, IsWithin, StandBetween};
ghost use Rattle.pw_cpp_expand.specs.declared.progress.ExpandFault.{ExpandFault};
ghost use Rattle.pw_cpp_expand.specs.declared.progress.Mode.{Mode};
ghost use Rattle.pw_cpp_expand.specs.declared.progress.Mode.TheVariants.{Alone, InText};
ghost use Rattle.pw_cpp_expand.specs.declared.progress.Progress.{Progress};
ghost use Rattle.pw_cpp_macros.specs.Macros.{Macros};
ghost use Rattle.pw_token.specs.declared.token.Token.{Token};

use pw_cpp_lines::{lines_go_on, one_end, one_head, one_line};

/// The next line of a text comes to one thing.
pub fn one_reading()
    ensures { (text : List ℕ) (at : ℕ) (p : Progress) (further other : Further) → ReadsOn text at p further → ReadsOn text at p other → further ≡ other }
{
    one_end();
    one_head();
    one_line();
}

/// Tokens come to one thing.
pub fn one_outcome()
    ensures { (source text : List ℕ) (macros : Macros) (mode : Mode) (pending : List Lexeme) (p : Progress) (outcome other : Outcome) → Expands source text macros mode pending p outcome → Expands source text macros mode pending p other → outcome ≡ other }
{
    one_end();
    one_head();
    one_line();
}

/// The tokens that a text comes to stand in the order of their places, as the lines do that were read.
pub fn tokens_in_order()
    ensures { (source text : List ℕ) (macros : Macros) (pending out : List Lexeme) (p q : Progress) (low first : ℕ) → Expands source text macros InText pending p (Done out q) → StandBetween low pending p.next → AreReadFrom first p → StandBetween low out q.next × AreReadFrom first q }
{}

/// The tokens of the line that is read first stand behind its beginning.
pub fn line_in_order()
    ensures { (text : List ℕ) (at : ℕ) (p q : Progress) (tokens : List Token) → p.rows ≡ [] → ReadsOn text at p (Tokens tokens q) → (first : ℕ) × StandBetween first (map fresh tokens) q.next × AreReadFrom first q }
{}

/// A fault of expansion stands among the tokens, or in a line that was read.
pub fn faults_within()
    ensures text { (source text : List ℕ) (macros : Macros) (pending : List Lexeme) (p : Progress) (fault : ExpandFault) (low : ℕ) → Expands source text macros InText pending p (Stopped fault) → All (IsWithin low (length text)) pending → low ≤ p.next → IsFaultWithin low (length text) fault }
    ensures alone { (source text : List ℕ) (macros : Macros) (pending : List Lexeme) (p : Progress) (fault : ExpandFault) (low high : ℕ) → Expands source text macros Alone pending p (Stopped fault) → All (IsWithin low high) pending → IsFaultWithin low high fault }
{}

/// A text goes on: the line behind one that is read begins further on, and what is expanded leads no way back.
pub fn text_goes_on()
    ensures reads { (text : List ℕ) (at : ℕ) (p q : Progress) (tokens : List Token) → ReadsOn text at p (Tokens tokens q) → at < q.next }
    ensures expands { (source text : List ℕ) (macros : Macros) (pending out : List Lexeme) (p q : Progress) → Expands source text macros InText pending p (Done out q) → p.next ≤ q.next }
{
    lines_go_on();
}
