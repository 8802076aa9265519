//! Items that stand at rising offsets inside an object of so many bytes.

ghost use Rattle.std.specs.Prelude.{◌≢◌, IfErr};
ghost use Rattle.pw_fields.specs.FieldFaults.{AnswersField};
ghost use Rattle.pw_files.specs.Places.{offset_at, item_bytes_at};

use pw_fields::{FieldFault, read_text_in_place, read_u32};

/// The offset of an item, from `free` to the object's size.
pub fn read_offset(size: u32, free: u64, bytes: &[u8]) -> Result<(u32, &[u8]), FieldFault>
    ensures found { AnswersField (λ x. (x.0, x.1.now)) result (offset_at size free bytes.now) }
    ensures no_memory { IfErr result (λ e. e ≢ FieldFault.NoMemory) }
{
    let (offset, rest) = read_u32(bytes)?;
    if free <= u64::from(offset) && offset <= size {
        Ok((offset, rest))
    } else {
        Err(FieldFault::Fault { left: bytes.len() })
    }
}

/// The bytes of an item at the offset, inside the object.
pub fn read_item_bytes(size: u32, offset: u32, bytes: &[u8]) -> Result<(&[u8], &[u8]), FieldFault>
    ensures found { AnswersField (λ x. (x.0.now, x.1.now)) result (item_bytes_at size offset bytes.now) }
    ensures no_memory { IfErr result (λ e. e ≢ FieldFault.NoMemory) }
{
    let (text, rest) = read_text_in_place(bytes)?;
    if offset <= size && text.len() <= (size - offset) as usize {
        Ok((text, rest))
    } else {
        Err(FieldFault::Fault { left: bytes.len() })
    }
}
