//! The registers that functions share, as text.

ghost use Rattle.std.specs.Prelude.{◌≡◌, ◌++◌, IfOk, OnOk};
ghost use Rattle.std.specs.List.{flat_map};
ghost use Rattle.std.specs.String.{string_bytes};
ghost use Rattle.pw_list.specs.DatabaseText.{register_line, register_text, shared_lines};

use pw_db::Directives;
use pw_value::Name;
use std::alloc::{AllocError, Global};

/// A register behind a blank.
fn register_text(alloc: Global, register: u8) -> Result<String, AllocError>
    ensures { IfOk result (λ s. string_bytes s ≡ register_text register) }
{
    format!(in alloc; " r{}", register)
}

/// Puts a register behind a text.
fn push_register(alloc: Global, out: &mut Vec<u8>, register: u8) -> Result<(), AllocError>
    ensures { OnOk result (out.new.items ≡ out.old.items ++ register_text register) }
{
    let text = register_text(alloc, register)?;
    out.extend_from_slice(text.as_bytes())?;
    Ok(())
}

/// Puts registers behind a text.
fn push_registers(alloc: Global, out: &mut Vec<u8>, registers: &[u8]) -> Result<(), AllocError>
    ensures { OnOk result (out.new.items ≡ out.old.items ++ flat_map register_text registers.now) }
{
    for &register in registers {
        push_register(alloc, out, register)?;
    }
    Ok(())
}

/// Puts a line for registers of a function behind a text, where it has some.
fn push_line(
    alloc: Global,
    out: &mut Vec<u8>,
    name: &Name,
    word: &[u8],
    registers: &[u8],
) -> Result<(), AllocError>
    ensures { OnOk result (out.new.items ≡ out.old.items ++ register_line word.now name.now registers.now) }
{
    if registers.is_empty() {
        return Ok(());
    }
    out.extend_from_slice(name.as_bytes())?;
    out.extend_from_slice(word)?;
    push_registers(alloc, out, registers)?;
    out.extend_from_slice(b"\n")?;
    Ok(())
}

/// Puts a function's lines behind a text.
fn push_function(
    alloc: Global,
    out: &mut Vec<u8>,
    function: &(Name, Directives),
) -> Result<(), AllocError>
    ensures { OnOk result (out.new.items ≡ out.old.items ++ shared_lines function.now) }
{
    let directives = &function.1;
    push_line(
        alloc,
        out,
        &function.0,
        b" saves",
        directives.saves.as_slice(),
    )?;
    push_line(
        alloc,
        out,
        &function.0,
        b" free",
        directives.free.as_slice(),
    )?;
    Ok(())
}

/// Puts the lines of functions behind a text: for each in turn the registers that it saves for others, and those that it is
/// free to use.
pub(crate) fn push_shared(
    alloc: Global,
    out: &mut Vec<u8>,
    functions: &[(Name, Directives)],
) -> Result<(), AllocError>
    ensures { OnOk result (out.new.items ≡ out.old.items ++ flat_map shared_lines functions.now) }
{
    for function in functions {
        push_function(alloc, out, function)?;
    }
    Ok(())
}
