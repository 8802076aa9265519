//! The fields of which the compiler's files are made: numbers, texts, truth values, lists, names and
//! the frame of a whole file. Each function that reads takes the bytes that are left and answers the
//! value and the bytes after it; a fault is told by the count of bytes that were left where the faulty
//! field begins.
#![tactic(auto)]

ghost use Rattle.std.specs.Prelude.{◌≡◌, ◌≢◌, List, length, IfErr};
ghost use Rattle.pw_fields.specs.Fields.{u8_at, u32_at, u64_at, bytes_at, text_at, choice_at, flag_at};
ghost use Rattle.pw_fields.specs.FieldFaults.{AnswersField};

use std::alloc::Global;

mod fault;
pub mod frame;
pub mod laws;
pub mod names;
pub mod writing;

pub use fault::FieldFault;

/// Reads a byte, and what is left behind it; a fault where no byte is there.
#[tactic(auto, unfolding(crate::specs::Fields::u8_at))]
pub fn read_u8(bytes: &[u8]) -> Result<(u8, &[u8]), FieldFault>
    ensures found { AnswersField (λ x. (x.0, x.1.now)) result (u8_at bytes.now) }
    ensures no_memory { IfErr result (λ e. e ≢ FieldFault.NoMemory) }
{
    match bytes {
        [] => Err(FieldFault::Fault { left: 0 }),
        [first, rest @ ..] => Ok((*first, rest)),
    }
}

/// Reads a number of four bytes, the highest first, and what is left behind it; a fault where fewer are there.
#[tactic(auto, unfolding(crate::specs::Fields::u32_at))]
pub fn read_u32(bytes: &[u8]) -> Result<(u32, &[u8]), FieldFault>
    ensures found { AnswersField (λ x. (x.0, x.1.now)) result (u32_at bytes.now) }
    ensures no_memory { IfErr result (λ e. e ≢ FieldFault.NoMemory) }
{
    if bytes.len() < 4 {
        return Err(FieldFault::Fault { left: bytes.len() });
    }
    let (front, rest) = bytes.split_at(4);
    let number = u32::from_be_bytes([front[0], front[1], front[2], front[3]]);
    Ok((number, rest))
}

/// A number of eight bytes, the highest first.
#[tactic(auto, unfolding(crate::specs::Fields::u64_at))]
pub fn read_u64(bytes: &[u8]) -> Result<(u64, &[u8]), FieldFault>
    ensures found { AnswersField (λ x. (x.0, x.1.now)) result (u64_at bytes.now) }
    ensures no_memory { IfErr result (λ e. e ≢ FieldFault.NoMemory) }
{
    if bytes.len() < 8 {
        return Err(FieldFault::Fault { left: bytes.len() });
    }
    let (front, rest) = bytes.split_at(8);
    let number = u64::from_be_bytes([
        front[0], front[1], front[2], front[3], front[4], front[5], front[6], front[7],
    ]);
    Ok((number, rest))
}

/// As many bytes as are asked for, in place.
#[tactic(auto, unfolding(crate::specs::Fields::bytes_at))]
pub fn read_bytes(count: usize, bytes: &[u8]) -> Result<(&[u8], &[u8]), FieldFault>
    ensures found { AnswersField (λ x. (x.0.now, x.1.now)) result (bytes_at count bytes.now) }
    ensures no_memory { IfErr result (λ e. e ≢ FieldFault.NoMemory) }
{
    if bytes.len() < count {
        return Err(FieldFault::Fault { left: bytes.len() });
    }
    Ok(bytes.split_at(count))
}

/// A text, in place: a count of four bytes and as many bytes. It is one field, whose place is its count's.
#[tactic(auto, unfolding(crate::specs::Fields::text_at))]
pub fn read_text_in_place(bytes: &[u8]) -> Result<(&[u8], &[u8]), FieldFault>
    ensures found { AnswersField (λ x. (x.0.now, x.1.now)) result (text_at bytes.now) }
    ensures no_memory { IfErr result (λ e. e ≢ FieldFault.NoMemory) }
{
    let (count, rest) = read_u32(bytes)?;
    let count = count as usize;
    if rest.len() < count {
        return Err(FieldFault::Fault { left: bytes.len() });
    }
    Ok(rest.split_at(count))
}

/// Reads a text, which is copied: the count of its bytes and the bytes; a fault at the count where fewer are there.
pub fn read_text(alloc: Global, bytes: &[u8]) -> Result<(Vec<u8>, &[u8]), FieldFault>
    ensures { AnswersField (λ x. (x.0.items, x.1.now)) result (text_at bytes.now) }
{
    let (text, rest) = read_text_in_place(bytes)?;
    Ok((Vec::from_slice(alloc, text)?, rest))
}

/// A byte that is one of the first `count` numbers.
#[tactic(auto, unfolding(crate::specs::Fields::choice_at))]
pub fn read_choice(count: u8, bytes: &[u8]) -> Result<(u8, &[u8]), FieldFault>
    ensures found { AnswersField (λ x. (x.0, x.1.now)) result (choice_at count bytes.now) }
    ensures no_memory { IfErr result (λ e. e ≢ FieldFault.NoMemory) }
{
    let (choice, rest) = read_u8(bytes)?;
    if choice >= count {
        return Err(FieldFault::Fault { left: bytes.len() });
    }
    Ok((choice, rest))
}

/// A truth value: 0 or 1.
#[tactic(auto, unfolding(crate::specs::Fields::flag_at))]
pub fn read_flag(bytes: &[u8]) -> Result<(bool, &[u8]), FieldFault>
    ensures found { AnswersField (λ x. (x.0, x.1.now)) result (flag_at bytes.now) }
    ensures no_memory { IfErr result (λ e. e ≢ FieldFault.NoMemory) }
{
    let (choice, rest) = read_choice(2, bytes)?;
    Ok((choice == 1, rest))
}
