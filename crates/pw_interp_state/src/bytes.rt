//! Bytes of an object from an offset on.

ghost use Rattle.std.specs.Prelude.{◌≡◌, ◌<◌, ◌+◌, ◌^◌, length, take, IfOk};
ghost use Rattle.pw_value.specs.Objects.{byte_at, bytes_from, with_bytes};
ghost use Rattle.pw_value.specs.Values.{IsWidth, encoding};

use pw_value::{Byte, Value, encode};
use std::alloc::{AllocError, Global};

/// A byte at an offset; undefined past the end.
fn byte(bytes: &[Byte], offset: usize) -> Byte
    ensures { result ≡ byte_at bytes.now offset }
{
    match bytes.get(offset) {
        Some(byte) => *byte,
        None => Byte::Undefined,
    }
}

/// The four bytes from an offset on; those past the end are undefined.
pub fn four_from(bytes: &[Byte], offset: u32) -> [Byte; 4]
    ensures { result ≡ bytes_from 4 offset bytes.now }
{
    let offset = offset as usize;
    [
        byte(bytes, offset),
        byte(bytes, offset + 1),
        byte(bytes, offset + 2),
        byte(bytes, offset + 3),
    ]
}

/// So many bytes from an offset on; those past the end are undefined.
#[tactic(auto, using(crate::proofs::ObjectLemmas::bytes_from_more))]
pub fn copied_from(
    alloc: Global,
    bytes: &[Byte],
    offset: u32,
    size: u32,
) -> Result<Vec<Byte>, AllocError>
    ensures { IfOk result (λ v. v.items ≡ bytes_from size offset bytes.now) }
{
    let mut copied = Vec::new(alloc);
    for i in 0..size {
        copied.push(byte(bytes, offset as usize + i as usize))?;
    }
    Ok(copied)
}

/// Puts new bytes in place of those from an offset on; what would stand past the end is dropped.
#[tactic(auto, using(crate::proofs::ObjectLemmas::with_bytes_step))]
pub fn write_bytes(bytes: &mut [Byte], offset: u32, new: &[Byte])
    ensures { bytes.new ≡ with_bytes new.now offset bytes.old }
{
    for (i, byte) in new.iter().enumerate() {
        let at = offset as usize + i;
        if at < bytes.len() {
            bytes[at] = *byte;
        }
    }
}

/// A number as the four bytes of a word, the first of them worth most.
pub(crate) fn word_bytes(n: u32) -> [Byte; 4]
    ensures { result ≡ encoding (Value.Num n) 4 }
{
    let high = Byte::Num((n / 16777216) as u8);
    let second = Byte::Num((n / 65536 % 256) as u8);
    let third = Byte::Num((n / 256 % 256) as u8);
    [high, second, third, Byte::Num((n % 256) as u8)]
}

/// A value as the bytes that it takes in an object of so many bytes: 1, 2 or 4. They are the first so many of
/// the four.
pub fn encoded(value: Value, width: u8) -> ([Byte; 4], usize)
    requires { IsWidth width }
    ensures bytes { take result.1 result.0 ≡ encoding value width }
    ensures count { result.1 < 5 }
{
    match value {
        Value::Undefined | Value::Num(_) => (encode(value, width), width as usize),
        Value::Null | Value::At(_) => (encode(value, 4), 4),
        Value::Piece(_, _) => (encode(value, 1), 1),
    }
}
