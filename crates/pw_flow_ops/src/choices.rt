//! Bytes that stand for a choice.

ghost use Rattle.std.specs.Prelude.{◌≡◌, ◌≢◌, List, length, IfErr};
ghost use Rattle.pw_fields.specs.FieldFaults.{AnswersField};
ghost use Rattle.pw_flow_ops.specs.Operations.{un_kinds, bin_kinds, ext_kinds, op_codes, end_codes};
ghost use Rattle.pw_flow_ops.specs.Reading.{one_of_at};

use crate::codes::{BIN_KINDS, END_CODES, EXT_KINDS, EndCode, OP_CODES, OpCode, UN_KINDS};
use pw_fields::{FieldFault, read_u8};
use pw_flow::{BinKind, ExtKind, UnKind};

/// A byte that is the place of one of the choices.
#[tactic(auto, unfolding(crate::specs::Reading::one_of_at, pw_fields::specs::Fields::u8_at))]
pub fn read_one_of<'a, T: Copy>(choices: &[T], bytes: &'a [u8]) -> Result<(T, &'a [u8]), FieldFault>
    ensures found { AnswersField (λ x. (x.0, x.1.now)) result (one_of_at choices.now bytes.now) }
    ensures no_memory { IfErr result (λ e. e ≢ FieldFault.NoMemory) }
{
    let (byte, rest) = read_u8(bytes)?;
    match choices.get(usize::from(byte)) {
        Some(choice) => Ok((*choice, rest)),
        None => Err(FieldFault::Fault { left: bytes.len() }),
    }
}

/// Which operation on one number.
pub fn read_un_kind(bytes: &[u8]) -> Result<(UnKind, &[u8]), FieldFault>
    ensures found { AnswersField (λ x. (x.0, x.1.now)) result (one_of_at un_kinds bytes.now) }
    ensures no_memory { IfErr result (λ e. e ≢ FieldFault.NoMemory) }
{
    read_one_of(&UN_KINDS, bytes)
}

/// Which operation on two numbers.
pub fn read_bin_kind(bytes: &[u8]) -> Result<(BinKind, &[u8]), FieldFault>
    ensures found { AnswersField (λ x. (x.0, x.1.now)) result (one_of_at bin_kinds bytes.now) }
    ensures no_memory { IfErr result (λ e. e ≢ FieldFault.NoMemory) }
{
    read_one_of(&BIN_KINDS, bytes)
}

/// Which low bits.
pub fn read_ext_kind(bytes: &[u8]) -> Result<(ExtKind, &[u8]), FieldFault>
    ensures found { AnswersField (λ x. (x.0, x.1.now)) result (one_of_at ext_kinds bytes.now) }
    ensures no_memory { IfErr result (λ e. e ≢ FieldFault.NoMemory) }
{
    read_one_of(&EXT_KINDS, bytes)
}

/// Which operation.
pub fn read_op_code(bytes: &[u8]) -> Result<(OpCode, &[u8]), FieldFault>
    ensures found { AnswersField (λ x. (x.0, x.1.now)) result (one_of_at op_codes bytes.now) }
    ensures no_memory { IfErr result (λ e. e ≢ FieldFault.NoMemory) }
{
    read_one_of(&OP_CODES, bytes)
}

/// Reads the byte that tells how a block ends, and answers what is left behind it. A byte of no end, and no byte, is
/// a fault.
pub fn read_end_code(bytes: &[u8]) -> Result<(EndCode, &[u8]), FieldFault>
    ensures found { AnswersField (λ x. (x.0, x.1.now)) result (one_of_at end_codes bytes.now) }
    ensures no_memory { IfErr result (λ e. e ≢ FieldFault.NoMemory) }
{
    read_one_of(&END_CODES, bytes)
}
