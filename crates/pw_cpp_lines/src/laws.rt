//! Laws of lines.

ghost use Rattle.std.specs.Prelude.{◌≡◌, ◌≤◌, ◌<◌, ◌+◌, ℕ, List, Ok, Result, length};
ghost use Rattle.pw_cpp_lines.specs.Heads.{IsHead};
ghost use Rattle.pw_cpp_lines.specs.Lines.{IsBehind, Lexes, PassesSpace};
ghost use Rattle.pw_cpp_lines.specs.Passing.{PassesLine, PassesRest};
ghost use Rattle.pw_cpp_lines.specs.declared.head.Head.TheVariants as head;
ghost use Rattle.pw_cpp_lines.specs.declared.head.Head.{Head};
ghost use Rattle.pw_cpp_lines.specs.declared.head.Span.{Span};
ghost use Rattle.pw_cpp_lines.specs.declared.line.Line.{Line};
ghost use Rattle.pw_cpp_lines.specs.declared.line.LineFault.{LineFault};

use pw_token::piece_at_is_exact;

/// The line that begins at a place comes to one thing.
pub fn one_line()
    ensures { (text : List ℕ) (at : ℕ) (answer other : Result Line LineFault) → Lexes text at answer → Lexes text at other → answer ≡ other }
{
    piece_at_is_exact();
}

/// The line that begins at a place is one thing.
pub fn one_head()
    ensures { (text : List ℕ) (at : ℕ) (head other : Head) → IsHead text at head → IsHead text at other → head ≡ other }
{
    piece_at_is_exact();
}

/// What is passed over from a place on ends at one place.
pub fn one_end()
    ensures space { (text : List ℕ) (at end other : ℕ) → PassesSpace text at end → PassesSpace text at other → end ≡ other }
    ensures rest { (text : List ℕ) (at next other : ℕ) → PassesRest text at next → PassesRest text at other → next ≡ other }
    ensures line { (text : List ℕ) (at next other : ℕ) → PassesLine text at next → PassesLine text at other → next ≡ other }
{
    piece_at_is_exact();
}

/// Where the next line begins is behind where this one does, however it is read or passed over; and a line has no more tokens than
/// bytes.
pub fn lines_go_on()
    ensures lexed { (text : List ℕ) (at : ℕ) (line : Line) → Lexes text at (Ok line) → IsBehind text at line.next }
    ensures tokens { (text : List ℕ) (at : ℕ) (line : Line) → Lexes text at (Ok line) → at + length line.tokens ≤ line.next }
    ensures rest { (text : List ℕ) (at next : ℕ) → PassesRest text at next → IsBehind text at next }
    ensures line { (text : List ℕ) (at next : ℕ) → PassesLine text at next → IsBehind text at next }
{
    piece_at_is_exact();
}

/// The `#` of a line stands in the text, no earlier than its line begins, and the name of a directive behind it.
pub fn heads_stand_behind()
    ensures marker { (text : List ℕ) (at hash : ℕ) → IsHead text at (head.Marker hash) → (at ≤ hash) × (hash < length text) }
    ensures directive { (text : List ℕ) (at hash : ℕ) (name : Span) → IsHead text at (head.Directive hash name) → (at ≤ hash) × (hash < length text) × (hash < name.at) }
    ensures space { (text : List ℕ) (at end : ℕ) → PassesSpace text at end → at ≤ end }
{}
