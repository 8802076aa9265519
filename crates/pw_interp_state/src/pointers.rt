//! Operators on pointers (ISO C90 6.3.6, 6.3.8, 6.3.9).

ghost use Rattle.std.specs.Prelude.{◌≡◌, ◌-ℤ◌, ◌/◌, pos, int_div, unsigned_abs};
ghost use Rattle.pw_value.specs.Values.{same_pointer};
ghost use Rattle.pw_value.specs.Words.{exact};
ghost use Rattle.pw_cmean.specs.Operators as meaning;
ghost use Rattle.pw_interp_state.specs.Answers.{needed};
ghost use Rattle.pw_interp_state.specs.Moves.{bytes_by, int_forward, int_backward};
ghost use Rattle.pw_interp_state.specs.Operations as spec;

use crate::fault::{Fault, judge};
use crate::findings::when;
use crate::moves::{Move, element_move, kept};
use crate::numbers::{arithmetic, number_for, word_answer};
use crate::objects::Objects;
use pw_cmean::Undef;
use pw_types::{BinaryOperator, IntKind, Layout};
use pw_value::words::{INT_MAX, unsigned_negation};
use pw_value::{Pointer, Value, WordFault};

/// Whether a value is a byte of a pointer.
pub(crate) fn is_piece(v: Value) -> bool
    ensures { result ≡ meaning.is_piece v }
{
    matches!(v, Value::Piece(_, _))
}

/// Whether a value is a pointer to an object that has ended.
pub(crate) fn is_ended(objects: &Objects, v: Value) -> bool
    ensures { result ≡ meaning.is_ended objects.now v }
{
    match v {
        Value::At(Pointer::Object(number, _)) => !objects.is_live(number),
        _ => false,
    }
}

/// A pointer behind a move, in its object or directly behind it; else None.
fn moved(objects: &Objects, p: Value, way: Move) -> Option<Value>
    ensures { result ≡ meaning.moved objects.now p (bytes_by way) }
{
    let Value::At(Pointer::Object(number, offset)) = p else {
        return None;
    };
    let to = kept(objects.bytes(number).len(), offset, way)?;
    Some(Value::At(Pointer::Object(number, to)))
}

/// The value that must be there.
fn need(value: Option<Value>) -> Result<Value, Fault>
    ensures { result ≡ needed value }
{
    value.ok_or(Fault::Wrong)
}

/// A pointer behind a move, as the member of a structure is.
pub fn advance(objects: &Objects, p: Value, way: Move) -> Result<Value, Fault>
    ensures { result ≡ spec.advanced objects.now p (bytes_by way) }
{
    let to = moved(objects, p, way);
    let found = when(Undef::PointerArithmetic, to.is_none(), None);
    judge(when(Undef::EndedObject, is_ended(objects, p), found))?;
    need(to)
}

/// A pointer plus so many elements of a layout, or minus.
pub(crate) fn advance_elements(
    objects: &Objects,
    layout: Option<Layout>,
    back: bool,
    p: Value,
    kind: IntKind,
    v: Value,
) -> Result<Value, Fault>
    ensures { result ≡ spec.elements_by objects.now layout back p kind v }
{
    let Some(layout) = layout else {
        return Err(Fault::Wrong);
    };
    let to = moved(objects, p, element_move(back, kind, v, layout.size));
    let found = when(Undef::PointerBytes, is_piece(v), None);
    let found = when(Undef::PointerArithmetic, to.is_none(), found);
    judge(when(Undef::EndedObject, is_ended(objects, p), found))?;
    need(to)
}

/// Whether two pointers are into one object.
fn into_one_object(p: Value, q: Value) -> bool
    ensures { result ≡ meaning.into_one_object p q }
{
    match (p, q) {
        (Value::At(Pointer::Object(a, _)), Value::At(Pointer::Object(b, _))) => a == b,
        _ => false,
    }
}

/// The offset of a pointer into an object; else 0.
fn offset_of(p: Value) -> u32
    ensures { result ≡ meaning.offset_of p }
{
    match p {
        Value::At(Pointer::Object(_, offset)) => offset,
        _ => 0,
    }
}

/// So many as an int, where one can hold it.
fn forward(count: u32) -> Result<u32, WordFault>
    ensures { result ≡ int_forward count }
{
    if count <= INT_MAX {
        Ok(count)
    } else {
        Err(WordFault::Overflow)
    }
}

/// So many below 0 as an int, where one can hold it.
fn backward(count: u32) -> Result<u32, WordFault>
    ensures { result ≡ int_backward count }
{
    if count <= INT_MAX + 1 {
        Ok(unsigned_negation(count))
    } else {
        Err(WordFault::Overflow)
    }
}

/// How many sizes lie in so many bytes.
#[tactic(auto, using(crate::proofs::ByteLemmas::div_none))]
fn elements_in(bytes: u32, size: u32) -> u32
    ensures { result ≡ bytes / size }
{
    if size == 0 { 0 } else { bytes / size }
}

/// So many elements as an int, where one can hold them.
#[tactic(auto, using(crate::proofs::MoveLemmas::quotient_on, crate::proofs::MoveLemmas::quotient_back))]
fn quotient(p: u32, q: u32, size: u32) -> Result<u32, WordFault>
    ensures { result ≡ exact (int_div (pos p -ℤ pos q) (pos size)) }
{
    if q <= p {
        forward(elements_in(p - q, size))
    } else {
        backward(elements_in(q - p, size))
    }
}

/// Whether so many bytes are no number of elements of a size.
fn are_no_elements(size: u32, bytes: u32) -> bool
    ensures { result ≡ meaning.are_no_elements size bytes }
{
    size == 0 || bytes % size != 0
}

/// Whether a distance is no number of elements of a size.
#[tactic(auto, using(crate::proofs::MoveLemmas::abs_on, crate::proofs::MoveLemmas::abs_back))]
fn is_uncounted(size: u32, p: u32, q: u32) -> bool
    ensures { result ≡ meaning.are_no_elements size (unsigned_abs (pos p -ℤ pos q)) }
{
    if q <= p {
        are_no_elements(size, p - q)
    } else {
        are_no_elements(size, q - p)
    }
}

/// How many elements of a size lie between two pointers.
fn difference(objects: &Objects, size: u32, p: Value, q: Value) -> Result<Value, Fault>
    ensures { result ≡ spec.subtracted objects.now size p q }
{
    let ended = is_ended(objects, p) || is_ended(objects, q);
    let uncounted = is_uncounted(size, offset_of(p), offset_of(q));
    let found = when(Undef::PointerDifference, uncounted, None);
    let found = when(Undef::DifferentObjects, !into_one_object(p, q), found);
    judge(when(Undef::EndedObject, ended, found))?;
    word_answer(quotient(offset_of(p), offset_of(q), size))
}

/// The order of pointers into one object.
fn ordered(objects: &Objects, op: BinaryOperator, p: Value, q: Value) -> Result<Value, Fault>
    ensures { result ≡ spec.ordered_by objects.now op p q }
{
    let ended = is_ended(objects, p) || is_ended(objects, q);
    let found = when(Undef::DifferentObjects, !into_one_object(p, q), None);
    judge(when(Undef::EndedObject, ended, found))?;
    word_answer(arithmetic(op, false, offset_of(p), offset_of(q)))
}

/// Whether two values are the same pointer; None where one is none.
fn same(p: Value, q: Value) -> Option<bool>
    ensures { result ≡ meaning.same p q }
{
    match (p, q) {
        (Value::Null, Value::Null) => Some(true),
        (Value::Null, Value::At(_)) | (Value::At(_), Value::Null) => Some(false),
        (Value::At(p), Value::At(q)) => Some(is_same(p, q)),
        _ => None,
    }
}

/// Whether two pointers are the same.
fn is_same(p: Pointer, q: Pointer) -> bool
    ensures { result ≡ same_pointer p q }
{
    match (p, q) {
        (Pointer::Object(a, i), Pointer::Object(b, j)) => a == b && i == j,
        (Pointer::Function(f), Pointer::Function(g)) => f == g,
        _ => false,
    }
}

/// Whether two pointers are the same, or are unlike.
fn compared(objects: &Objects, unlike: bool, p: Value, q: Value) -> Result<Value, Fault>
    ensures { result ≡ spec.compared_by objects.now unlike p q }
{
    let ended = is_ended(objects, p) || is_ended(objects, q);
    judge(when(Undef::EndedObject, ended, None))?;
    match same(p, q) {
        Some(holds) => Ok(Value::Num(number_for(holds != unlike))),
        None => Err(Fault::Wrong),
    }
}

/// A binary operator on two pointers, of which the first points to what has the layout.
pub(crate) fn on_pointers(
    objects: &Objects,
    layout: Option<Layout>,
    op: BinaryOperator,
    p: Value,
    q: Value,
) -> Result<Value, Fault>
    ensures { result ≡ spec.pointers_by objects.now layout op p q }
{
    match op {
        BinaryOperator::Subtract => match layout {
            Some(layout) => difference(objects, layout.size, p, q),
            None => Err(Fault::Wrong),
        },
        BinaryOperator::Less
        | BinaryOperator::Greater
        | BinaryOperator::LessEqual
        | BinaryOperator::GreaterEqual => ordered(objects, op, p, q),
        BinaryOperator::Equal => compared(objects, false, p, q),
        BinaryOperator::NotEqual => compared(objects, true, p, q),
        _ => Err(Fault::Wrong),
    }
}
