//! Shapes: the texts by which modules compare the types of what they share.

ghost use Rattle.std.specs.Prelude.{◌≡◌, ◌↔◌, IfOk, IsTrue, ◌==◌, ◌≤◌, ◌∷◌, length, MatchOption};
ghost use Rattle.std.specs.Char.{is_ascii_digit};
ghost use Rattle.std.specs.List.{prefix_len};
ghost use Rattle.std.proofs.Common.{rules};
ghost use Rattle.std.specs.Cmp.{partial_order_from_own_ties};
ghost use Rattle.std.specs.Cmp.Rules.{comparing};
ghost use Rattle.std.specs.Cmp.Lexicographic.{pointwise, slice_cmp};
ghost use Rattle.std.specs.Ordering.{nat_cmp, as_partial_cmp};
ghost use Rattle.pw_value.specs.Shapes.{Agree, GivesLength, GivesDigits, Begins};

use crate::name::Name;
use std::alloc::{AllocError, Global};
use std::cmp::Ordering;
use std::marker::Model;

/// A type as a text. A scalar is one letter: `c` char, `a` signed char, `h` unsigned char, `s` short,
/// `t` unsigned short, `i` int, `j` unsigned int, `l` long, `m` unsigned long, `p` a pointer; `v` is
/// void; a `!` before a letter marks volatile. An array is `[12]`, or `[]` without a length, and its
/// element's shape. A struct is `{`, its size, `:`, its members' shapes and `}`, a union the same
/// with `<` and `>`. A function is `f`, its result's letter and its parameters' letters.
///
/// Any bytes are a shape here, since a file may hold any. Shapes are equal where their bytes are, and
/// they are ordered byte by byte, a proper prefix first. A contract sees a shape as its bytes.
#[derive(Drop)]
pub struct Shape {
    bytes: Vec<u8>,
}

impl Model for Shape {
    ghost use Rattle.std.specs.Prelude.{ℕ, List};

    ghost Value = { List ℕ };

    ghost view = { λ inside. inside.bytes.items };
}

impl Shape {
    /// The shape of these bytes.
    pub fn new(bytes: Vec<u8>) -> Shape
        ensures { result ≡ bytes.items }
    {
        Shape { bytes }
    }

    /// The shape's bytes.
    pub fn as_bytes(&self) -> &[u8]
        ensures { result.now ≡ self.now }
    {
        self.bytes.as_slice()
    }

    /// Another shape of the same bytes.
    pub fn copy(&self, alloc: Global) -> Result<Shape, AllocError>
        ensures { IfOk result (λ shape. shape ≡ self.now) }
    {
        Ok(Shape {
            bytes: Vec::from_slice(alloc, self.bytes.as_slice())?,
        })
    }
}

impl PartialEq for Shape {
    ghost eq = { pointwise ◌==◌ };

    ghost laws = { Prim.search (comparing, rules) };

    fn eq(&self, other: &Shape) -> bool {
        self.bytes.as_slice() == other.bytes.as_slice()
    }
}

impl Eq for Shape {
    ghost laws = { Prim.search (comparing, rules) };
}

impl Ord for Shape {
    ghost cmp = { slice_cmp nat_cmp };

    ghost total = { Prim.search (comparing, rules) };

    ghost matches_partial_cmp = { Prim.search (comparing, rules) };

    ghost matches_eq = { Prim.search (comparing, rules) };

    fn cmp(&self, other: &Shape) -> Ordering {
        self.bytes.as_slice().cmp(other.bytes.as_slice())
    }
}

impl PartialOrd for Shape {
    ghost partial_cmp = { as_partial_cmp (slice_cmp nat_cmp) };

    ghost laws = { partial_order_from_own_ties (Prim.search (comparing, rules)) (Prim.search (comparing, rules)) };

    fn partial_cmp(&self, other: &Shape) -> Option<Ordering> {
        Some(self.cmp(other))
    }
}

/// The same names with their shapes again.
pub fn copied_shapes(
    alloc: Global,
    named: &[(Name, Shape)],
) -> Result<Vec<(Name, Shape)>, AllocError>
    ensures { IfOk result (λ copies. copies.items ≡ named.now) }
{
    let mut copies = Vec::new(alloc);
    for (name, shape) in named {
        copies.push((name.copy(alloc)?, shape.copy(alloc)?))?;
    }
    Ok(copies)
}

/// Whether two shapes agree: they are equal, or become equal when a `[]` at the beginning of one is
/// replaced by the length in brackets at the beginning of the other.
pub fn agree(a: &Shape, b: &Shape) -> bool
    ensures { IsTrue result ↔ Agree a.now b.now }
{
    let (a, b) = (a.as_bytes(), b.as_bytes());
    a == b || gives_length(a, b) || gives_length(b, a)
}

/// Whether `given` is `without` with a length put into the empty brackets at its beginning.
fn gives_length(without: &[u8], given: &[u8]) -> bool
    ensures { IsTrue result ↔ GivesLength without.now given.now }
{
    let Some(closing) = after_byte(without, b'[') else {
        return false;
    };
    let Some(rest) = after_byte(given, b'[') else {
        return false;
    };
    after_byte(closing, b']').is_some() && gives_digits(closing, rest)
}

/// Whether the text is one decimal digit or more and then `closing`, which begins with no digit.
fn gives_digits(closing: &[u8], text: &[u8]) -> bool
    requires { Begins 93 closing.now }
    ensures { IsTrue result ↔ GivesDigits closing.now text.now }
{
    let digits = digits_at_front(text);
    let (_, rest) = text.split_at(digits);
    digits > 0 && rest == closing
}

/// What comes after this byte, where the text begins with it.
fn after_byte(text: &[u8], byte: u8) -> Option<&[u8]>
    ensures { MatchOption result (¬ Begins byte text.now) (λ rest. text.now ≡ byte ∷ rest.now) }
{
    match text.split_first() {
        Some((first, rest)) if *first == byte => Some(rest),
        _ => None,
    }
}

/// How many decimal digits the text begins with.
fn digits_at_front(text: &[u8]) -> usize
    ensures count { result ≡ prefix_len is_ascii_digit text.now }
    ensures within { result ≤ length text.now }
{
    text.iter().take_while(|byte| byte.is_ascii_digit()).count()
}
