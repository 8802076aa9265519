//! Values to bytes and back.

ghost use Rattle.std.specs.Prelude.{◌≡◌, ◌↔◌, ◌%◌, ◌^◌, ◌<◌, ℕ, Bool, take, replicate, [], ◌∷◌};
ghost use Rattle.pw_value.specs.Values.{IsWidth, FitsWidth, encoding, padded, scalar_in, pointer_in, pieces_of, number_bytes, extended};
ghost use Rattle.pw_value.specs.Values as spec;
ghost use Rattle.pw_value.specs.declared.value.Pointer.{Pointer as AnyPointer};

use crate::value::{Byte, Pointer, Value};

/// A value in `width` bytes, which is 1, 2 or 4: a number's low bytes, the one that is worth most
/// first; a pointer's four pieces; four zeros for the null pointer. Bytes past the width are undefined.
pub fn encode(value: Value, width: u8) -> [Byte; 4]
    requires { FitsWidth value width }
    ensures { result ≡ padded (encoding value width) }
{
    match value {
        Value::Undefined => [Byte::Undefined; 4],
        Value::Num(n) => encode_number(n, width),
        Value::Null => [Byte::Num(0); 4],
        Value::At(p) => [
            Byte::Piece(p, 0),
            Byte::Piece(p, 1),
            Byte::Piece(p, 2),
            Byte::Piece(p, 3),
        ],
        Value::Piece(p, i) => [
            Byte::Piece(p, i),
            Byte::Undefined,
            Byte::Undefined,
            Byte::Undefined,
        ],
    }
}

fn encode_number(n: u32, width: u8) -> [Byte; 4]
    requires { IsWidth width }
    ensures { result ≡ padded (number_bytes width n) }
{
    let ones = Byte::Num((n % 256) as u8);
    let twos = Byte::Num((n / 256 % 256) as u8);
    match width {
        1 => [ones, Byte::Undefined, Byte::Undefined, Byte::Undefined],
        2 => [twos, ones, Byte::Undefined, Byte::Undefined],
        _ => {
            let threes = Byte::Num((n / 65536 % 256) as u8);
            [Byte::Num((n / 16777216) as u8), threes, twos, ones]
        }
    }
}

/// The value of a whole number or a character that stands in the first `width` bytes: a number where
/// each holds a number, extended to 32 bits by its sign where `signed`; a piece where the width is 1
/// and the byte is a piece; else undefined.
pub fn decode(bytes: [Byte; 4], width: u8, signed: bool) -> Value
    requires { IsWidth width }
    ensures { result ≡ scalar_in (take width bytes) signed }
{
    match width {
        1 => decode_byte(bytes[0], signed),
        2 => decode_half(bytes[0], bytes[1], signed),
        _ => match bytes {
            [Byte::Num(a), Byte::Num(b), Byte::Num(c), Byte::Num(d)] => {
                Value::Num(
                    u32::from(a) * 16777216
                        + u32::from(b) * 65536
                        + u32::from(c) * 256
                        + u32::from(d),
                )
            }
            _ => Value::Undefined,
        },
    }
}

fn decode_byte(byte: Byte, signed: bool) -> Value
    ensures { result ≡ scalar_in (byte ∷ []) signed }
{
    match byte {
        Byte::Undefined => Value::Undefined,
        Byte::Num(n) if signed && n >= 128 => Value::Num(u32::from(n) + (u32::MAX - 255)),
        Byte::Num(n) => Value::Num(u32::from(n)),
        Byte::Piece(p, i) => Value::Piece(p, i),
    }
}

fn decode_half(high: Byte, low: Byte, signed: bool) -> Value
    ensures { result ≡ scalar_in (high ∷ low ∷ []) signed }
{
    match (high, low) {
        (Byte::Num(high), Byte::Num(low)) if signed && high >= 128 => {
            Value::Num(u32::from(high) * 256 + u32::from(low) + (u32::MAX - 65535))
        }
        (Byte::Num(high), Byte::Num(low)) => Value::Num(u32::from(high) * 256 + u32::from(low)),
        _ => Value::Undefined,
    }
}

/// The pointer that stands in four bytes: null exactly where each is the number 0, a pointer exactly
/// where they are its pieces 0 to 3 in order, and else undefined.
pub fn decode_pointer(bytes: [Byte; 4]) -> Value
    ensures value { result ≡ pointer_in bytes }
{
    let [first, second, third, fourth] = bytes;
    match first {
        Byte::Num(0) if is_zero(second) && is_zero(third) && is_zero(fourth) => Value::Null,
        Byte::Piece(p, 0)
            if is_piece(p, 1, second) && is_piece(p, 2, third) && is_piece(p, 3, fourth) => {
            Value::At(p)
        }
        _ => Value::Undefined,
    }
}

fn is_zero(byte: Byte) -> bool
    ensures { result ≡ spec.is_zero byte }
{
    byte == Byte::Num(0)
}

fn is_piece(p: Pointer, i: u8, byte: Byte) -> bool
    ensures { result ≡ spec.is_piece p i byte }
{
    byte == Byte::Piece(p, i)
}
