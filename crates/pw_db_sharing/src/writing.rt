//! Writing the registers that a function shares with others.

ghost use Rattle.std.specs.Prelude.{◌≡◌, ◌++◌, OnOk};
ghost use Rattle.std.specs.List.{flat_map};
ghost use Rattle.pw_fields.specs.Fields.{u8};
ghost use Rattle.pw_files.specs.Rising.{counted};
ghost use Rattle.pw_db_sharing.specs.Spelling.{sharing};

use pw_db::{Directives, FIRST};
use pw_fields::writing::{push_u8, push_u32};
use pw_files::writing::push_count;
use std::alloc::AllocError;

/// Registers, one after the other.
fn push_registers(out: &mut Vec<u8>, registers: &[u8]) -> Result<(), AllocError>
    ensures { OnOk result (out.new.items ≡ out.old.items ++ flat_map u8 registers.now) }
{
    for register in registers {
        push_u8(out, *register)?;
    }
    Ok(())
}

/// A list of registers.
#[tactic(auto, unfolding(pw_files::specs::Rising::counted))]
fn push_list(out: &mut Vec<u8>, registers: &[u8]) -> Result<(), AllocError>
    ensures { OnOk result (out.new.items ≡ out.old.items ++ counted u8 registers.now) }
{
    push_count(out, registers.len())?;
    push_registers(out, registers)
}

/// Writes the registers that a function shares with others, in the form of a version: a count of none stands for them in the
/// first.
pub fn push_sharing(
    out: &mut Vec<u8>,
    version: u32,
    directives: &Directives,
) -> Result<(), AllocError>
    ensures { OnOk result (out.new.items ≡ out.old.items ++ sharing version (directives.now.free, directives.now.saves)) }
{
    if version == FIRST {
        push_u32(out, 0)
    } else {
        push_list(out, directives.free.as_slice())?;
        push_list(out, directives.saves.as_slice())
    }
}
