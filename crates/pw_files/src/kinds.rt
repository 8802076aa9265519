//! The byte of a kind: 0 where there is none, and 1 to 5 for the kinds of scalars.

ghost use Rattle.std.specs.Prelude.{◌≡◌, ◌≢◌, ◌++◌, OnOk, IfErr};
ghost use Rattle.pw_fields.specs.FieldFaults.{AnswersField};
ghost use Rattle.pw_files.specs.Kinds.{kind as kind_byte, scalar, scalar_code, kind_at, scalar_at, scalar_of};

use pw_fields::writing::push_u8;
use pw_fields::{FieldFault, read_choice, read_u8};
use pw_value::Kind;
use std::alloc::AllocError;

/// The kind of a byte from 1 to 5.
fn scalar_from(code: u8) -> Kind
    ensures { result ≡ scalar_of code }
{
    match code {
        0 | 1 => Kind::S8,
        2 => Kind::U8,
        3 => Kind::S16,
        4 => Kind::U16,
        _ => Kind::W32,
    }
}

/// Reads the byte of a scalar's kind, or that of none, and answers what is left behind it. Another byte than 0 to 5,
/// and no byte, is a fault.
#[tactic(auto, unfolding(crate::specs::Kinds::kind_at))]
pub fn read_kind(bytes: &[u8]) -> Result<(Option<Kind>, &[u8]), FieldFault>
    ensures found { AnswersField (λ x. (x.0, x.1.now)) result (kind_at bytes.now) }
    ensures no_memory { IfErr result (λ e. e ≢ FieldFault.NoMemory) }
{
    let (code, rest) = read_choice(6, bytes)?;
    let kind = if code == 0 {
        None
    } else {
        Some(scalar_from(code))
    };
    Ok((kind, rest))
}

/// A scalar's kind.
#[tactic(auto, unfolding(crate::specs::Kinds::scalar_at))]
pub fn read_scalar(bytes: &[u8]) -> Result<(Kind, &[u8]), FieldFault>
    ensures found { AnswersField (λ x. (x.0, x.1.now)) result (scalar_at bytes.now) }
    ensures no_memory { IfErr result (λ e. e ≢ FieldFault.NoMemory) }
{
    let (code, rest) = read_u8(bytes)?;
    if 1 <= code && code <= 5 {
        Ok((scalar_from(code), rest))
    } else {
        Err(FieldFault::Fault { left: bytes.len() })
    }
}

/// The byte of a scalar's kind.
pub fn code_of(kind: Kind) -> u8
    ensures { result ≡ scalar_code kind }
{
    match kind {
        Kind::S8 => 1,
        Kind::U8 => 2,
        Kind::S16 => 3,
        Kind::U16 => 4,
        Kind::W32 => 5,
    }
}

/// Writes the byte of a scalar's kind, 1 to 5, or 0 for none.
pub fn push_kind(out: &mut Vec<u8>, kind: Option<Kind>) -> Result<(), AllocError>
    ensures { OnOk result (out.new.items ≡ out.old.items ++ kind_byte kind) }
{
    match kind {
        None => push_u8(out, 0),
        Some(kind) => push_u8(out, code_of(kind)),
    }
}

/// A scalar's kind.
pub fn push_scalar(out: &mut Vec<u8>, kind: Kind) -> Result<(), AllocError>
    ensures { OnOk result (out.new.items ≡ out.old.items ++ scalar kind) }
{
    push_u8(out, code_of(kind))
}
