//! Reading scalars, and what an access is where it has no meaning.

ghost use Rattle.std.specs.Prelude.{◌≡◌, ◌<◌, ◌^◌, ◌%◌, ◌==◌, ℕ, true, not, take, Some, Ok, IfSome};
ghost use Rattle.pw_value.specs.Objects.{byte_at, bytes_from};
ghost use Rattle.pw_value.specs.Values.{IsWidth, number_in};
ghost use Rattle.std.specs.List.{list_any};
ghost use Rattle.pw_cmean.specs.Undefined.{least};
ghost use Rattle.pw_cmean.specs.Access as meaning;
ghost use Rattle.pw_interp_state.specs.Categories.{type_for};
ghost use Rattle.pw_interp_state.specs.Accesses as spec;

use crate::bytes::four_from;
use crate::category::Category;
use crate::fault::{Fault, judge};
use crate::findings::when;
use crate::objects::Objects;
use pw_cmean::Undef;
use pw_types::IntKind;
use pw_value::{Byte, Pointer, Value, decode, decode_pointer};

/// Whether an offset is no multiple of an alignment.
#[tactic(auto, using(crate::proofs::ByteLemmas::mod_none))]
fn is_odd(offset: u32, align: u32) -> bool
    ensures { result ≡ not (offset % align == 0) }
{
    if align == 0 {
        offset != 0
    } else {
        offset % align != 0
    }
}

/// What an access of so many bytes is where it has no meaning.
pub(crate) fn access(objects: &Objects, width: u32, align: u32, place: Value) -> Option<Undef>
    ensures { result ≡ least (meaning.access objects.now width align place) }
{
    match place {
        Value::Null => Some(Undef::NullPointer),
        Value::At(Pointer::Function(_)) => Some(Undef::FunctionAccess),
        Value::At(Pointer::Object(number, offset)) => {
            let outside = !is_inside(width, offset, objects.bytes(number));
            let odd = when(Undef::Alignment, is_odd(offset, align), None);
            let ended = when(Undef::EndedObject, !objects.is_live(number), odd);
            when(Undef::OutsideObject, outside, ended)
        }
        Value::Undefined | Value::Num(_) | Value::Piece(_, _) => None,
    }
}

/// Whether so many bytes from an offset on lie wholly inside an object.
fn is_inside(width: u32, offset: u32, bytes: &[Byte]) -> bool
    ensures { result ≡ meaning.is_inside width offset bytes.now }
{
    u64::from(offset) + u64::from(width) <= bytes.len() as u64
}

/// Whether the bytes of a scalar at a place lie wholly inside an object.
fn is_within(objects: &Objects, width: u8, place: Value) -> bool
    ensures { result ≡ meaning.is_within objects.now width place }
{
    match place {
        Value::At(Pointer::Object(number, offset)) => {
            is_inside(u32::from(width), offset, objects.bytes(number))
        }
        _ => false,
    }
}

/// The four bytes from a place on; undefined where it is none.
#[tactic(auto, using(crate::proofs::ByteLemmas::first_of_four))]
fn four_at(objects: &Objects, place: Value) -> [Byte; 4]
    ensures { (width : ℕ) → IsWidth width → meaning.is_within objects.now width place ≡ true → take width result ≡ meaning.bytes_at objects.now width place }
{
    match place {
        Value::At(Pointer::Object(number, offset)) => four_from(objects.bytes(number), offset),
        _ => [Byte::Undefined; 4],
    }
}

/// Whether one of the first so many bytes is undefined.
fn has_undefined(bytes: [Byte; 4], width: u8) -> bool
    requires { IsWidth width }
    ensures { result ≡ list_any meaning.is_undefined_byte (take width bytes) }
{
    let [a, b, c, d] = bytes;
    match width {
        1 => a == Byte::Undefined,
        2 => a == Byte::Undefined || b == Byte::Undefined,
        _ => [a, b, c, d].contains(&Byte::Undefined),
    }
}

/// The value of a scalar of the category in the first of the bytes.
fn value_in(category: Category, bytes: [Byte; 4]) -> Value
    ensures { result ≡ meaning.value_in (type_for category) (take (spec.width_for category) bytes) }
{
    match category {
        Category::Int(kind) => decode(bytes, kind.size(), kind.is_signed()),
        Category::Void
        | Category::Pointer
        | Category::Array
        | Category::Function
        | Category::Record => decode_pointer(bytes),
    }
}

/// What reading a scalar is where it has no meaning.
fn reading(objects: &Objects, category: Category, place: Value) -> Option<Undef>
    ensures { result ≡ least (meaning.reading objects.now (type_for category) place) }
{
    let width = category.width();
    let within = is_within(objects, width, place);
    let bytes = four_at(objects, place);
    let no_value = within && value_in(category, bytes) == Value::Undefined;
    let found = access(objects, u32::from(width), u32::from(width), place);
    let found = when(Undef::PointerBytes, no_value, found);
    when(
        Undef::UndefinedValue,
        within && has_undefined(bytes, width),
        found,
    )
}

/// Reads a scalar of the category at a place, by what its bytes are.
#[tactic(auto, using(crate::proofs::ByteLemmas::first_of_four))]
#[inline(never)]
fn load_bytes(objects: &Objects, category: Category, place: Value) -> Result<Value, Fault>
    ensures { result ≡ spec.loaded objects.now category place }
{
    judge(reading(objects, category, place))?;
    match place {
        Value::At(Pointer::Object(number, offset)) => {
            Ok(value_in(category, four_from(objects.bytes(number), offset)))
        }
        _ => Err(Fault::Wrong),
    }
}

/// The number that a byte at an offset is.
#[inline(always)]
fn number_at(bytes: &[Byte], offset: usize) -> Option<u8>
    ensures { IfSome result (λ n. byte_at bytes.now offset ≡ Byte.Num n) }
{
    match bytes.get(offset) {
        Some(Byte::Num(n)) => Some(*n),
        _ => None,
    }
}

/// The word that four numbers from an offset on are, the first of them worth most.
#[tactic(auto, using(crate::proofs::WordLemmas::four_write))]
#[inline(always)]
fn word_at(bytes: &[Byte], offset: u32) -> Option<u32>
    ensures word { IfSome result (λ n. number_in (bytes_from 4 offset bytes.now) ≡ Some n) }
    ensures range { IfSome result (λ n. n < 2 ^ 32) }
{
    let offset = offset as usize;
    let first = number_at(bytes, offset)?;
    let second = number_at(bytes, offset + 1)?;
    let third = number_at(bytes, offset + 2)?;
    let fourth = number_at(bytes, offset + 3)?;
    let high = u32::from(first) * 16777216 + u32::from(second) * 65536;
    Some(high + u32::from(third) * 256 + u32::from(fourth))
}

/// The word that an integer of four bytes at an offset of an object is, where the read has a meaning.
#[tactic(auto, using(crate::proofs::WordLemmas::word_loaded))]
#[inline(always)]
fn word_inside(objects: &Objects, kind: IntKind, number: u128, offset: u32) -> Option<u32>
    ensures { IfSome result (λ n. spec.loaded objects.now (Category.Int kind) (Value.At (Pointer.Object number offset)) ≡ Ok (Value.Num n)) }
{
    let bytes = objects.bytes(number);
    if kind.size() != 4 || offset % 4 != 0 {
        return None;
    }
    if !objects.is_live(number) || !is_inside(4, offset, bytes) {
        return None;
    }
    word_at(bytes, offset)
}

/// The word that an integer of four bytes at a place is, where the read has a meaning; None where the bytes are to tell.
#[inline(always)]
fn word_in(objects: &Objects, category: Category, place: Value) -> Option<u32>
    ensures { IfSome result (λ n. spec.loaded objects.now category place ≡ Ok (Value.Num n)) }
{
    match (category, place) {
        (Category::Int(kind), Value::At(Pointer::Object(number, offset))) => {
            word_inside(objects, kind, number, offset)
        }
        _ => None,
    }
}

/// Reads a scalar of the category at a place.
#[inline(always)]
pub fn load(objects: &Objects, category: Category, place: Value) -> Result<Value, Fault>
    ensures { result ≡ spec.loaded objects.now category place }
{
    match word_in(objects, category, place) {
        Some(word) => Ok(Value::Num(word)),
        None => load_bytes(objects, category, place),
    }
}

/// The value of an lvalue of the category: of what is no scalar its place (ISO C90 6.2.2.1).
#[inline(always)]
pub fn fetch(objects: &Objects, category: Category, place: Value) -> Result<Value, Fault>
    ensures { result ≡ spec.fetched objects.now category place }
{
    match category {
        Category::Int(_) | Category::Pointer => load(objects, category, place),
        Category::Void | Category::Array | Category::Function | Category::Record => Ok(place),
    }
}
