//! Writing single fields: each is put behind what was written before.

ghost use Rattle.std.specs.Prelude.{◌≡◌, ◌++◌, ◌<◌, ◌^◌, List, length, OnOk};
ghost use Rattle.pw_fields.specs.Fields.{u8, u32, u64, text, flag, FitsText};

use std::alloc::AllocError;

/// Adds a byte.
pub fn push_u8(out: &mut Vec<u8>, number: u8) -> Result<(), AllocError>
    ensures { OnOk result (out.new.items ≡ out.old.items ++ u8 number) }
{
    out.push(number)?;
    Ok(())
}

/// A number of four bytes, the highest first.
#[tactic(auto, unfolding(crate::specs::Fields::u32))]
pub fn push_u32(out: &mut Vec<u8>, number: u32) -> Result<(), AllocError>
    ensures { OnOk result (out.new.items ≡ out.old.items ++ u32 number) }
{
    out.extend_from_slice(&number.to_be_bytes())
}

/// A number of eight bytes, the highest first.
#[tactic(auto, unfolding(crate::specs::Fields::u64))]
pub fn push_u64(out: &mut Vec<u8>, number: u64) -> Result<(), AllocError>
    ensures { OnOk result (out.new.items ≡ out.old.items ++ u64 number) }
{
    out.extend_from_slice(&number.to_be_bytes())
}

/// A text: its count of bytes, and the bytes.
#[tactic(auto, unfolding(crate::specs::Fields::text))]
pub fn push_text(out: &mut Vec<u8>, bytes: &[u8]) -> Result<(), AllocError>
    requires { FitsText bytes.now }
    ensures { OnOk result (out.new.items ≡ out.old.items ++ text bytes.now) }
{
    push_u32(out, bytes.len() as u32)?;
    out.extend_from_slice(bytes)?;
    Ok(())
}

/// A truth value: 0 or 1.
pub fn push_flag(out: &mut Vec<u8>, truth: bool) -> Result<(), AllocError>
    ensures { OnOk result (out.new.items ≡ out.old.items ++ flag truth) }
{
    push_u8(out, if truth { 1 } else { 0 })
}
