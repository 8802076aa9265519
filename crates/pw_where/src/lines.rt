//! The lines of a call.

ghost use Rattle.std.specs.Prelude.{◌≡◌, ◌++◌, ℕ, List, Ok, Result, IfOk, OnOk};
ghost use Rattle.std.specs.List.{AllByRecursion};
ghost use Rattle.std.specs.Option.{option_copied};
ghost use Rattle.pw_debug.specs.Knowing.{IsFrame};
ghost use Rattle.pw_where.specs.Shown.{call_line, value_line};
ghost use Rattle.pw_where.specs.Looks.{begins_at, behind, called_at, name_at, Values, told_lines};

use crate::numbers::push_number;
use crate::shown::Shown;
use pw_debug::{FrameInfo, Lost, global_at};
use pw_image::Function;
use pw_machine::Machine;
use pw_value::program_names::{StartName, is_allowed};
use pw_value::push_decimal;
use std::alloc::{AllocError, Global};

/// Lines, or the address at which a walk is lost.
#[derive(Drop)]
pub enum Told {
    /// The lines, with their newlines.
    Lines(Vec<u8>),
    /// The address at which the walk is lost.
    Lost(u32),
}

/// Whether a function, other than `$start`, begins at an address.
fn begins_at(function: &Function, address: u32) -> bool
    ensures { result ≡ begins_at function.now address }
{
    is_allowed(StartName::Refused, &function.name) && function.address == address
}

/// The first of the functions, other than `$start`, that begins at an address.
fn called_at(functions: &[Function], address: u32) -> Option<&Function>
    ensures { option_copied result ≡ called_at functions.now address }
{
    functions
        .iter()
        .find(|function| begins_at(function, address))
}

/// The name of the first function of a module, other than `$start`, that begins at an address.
pub(crate) fn name_at(functions: &[Function], address: u32) -> &[u8]
    ensures { result.now ≡ name_at functions.now address }
{
    match called_at(functions, address) {
        Some(function) => function.name.as_bytes(),
        None => &[],
    }
}

/// The line of a call: its number, and the function's name.
pub(crate) fn call_line(alloc: Global, call: u64, name: &[u8]) -> Result<Vec<u8>, AllocError>
    ensures { IfOk result (λ v. v.items ≡ call_line call name.now) }
{
    let mut text = Vec::new(alloc);
    text.extend_from_slice(b"call ")?;
    push_decimal(&mut text, call)?;
    text.extend_from_slice(b" ")?;
    text.extend_from_slice(name)?;
    text.extend_from_slice(b"\n")?;
    Ok(text)
}

/// Puts the line of a global behind a text: its name, and a word as its value.
fn push_value(text: &mut Vec<u8>, global: &Shown, word: u32) -> Result<(), AllocError>
    ensures { OnOk result (text.new.items ≡ text.old.items ++ value_line global.now word) }
{
    text.extend_from_slice(global.object.name.as_bytes())?;
    text.extend_from_slice(b" ")?;
    push_number(text, global.number.is_signed, word)?;
    text.extend_from_slice(b"\n")
}

/// A text, and behind it the lines of globals at a call, before which the machine stands.
pub(crate) fn with_values(
    text: Vec<u8>,
    machine: &Machine,
    functions: &[Function],
    frames: &[FrameInfo],
    globals: &[Shown],
) -> Result<Told, AllocError>
    requires { AllByRecursion IsFrame frames.now }
    ensures { IfOk result (λ told. (lines : Result (List ℕ) ℕ) × Values functions.now frames.now machine.now.core globals.now lines × (told_lines told ≡ behind text.items lines)) }
{
    let mut text = text;
    let mut rest = globals;
    while let [global, after @ ..] = rest {
        match global_at(
            machine,
            functions,
            frames,
            &global.object,
            global.number.kind,
        ) {
            Ok(word) => push_value(&mut text, global, word)?,
            Err(Lost(address)) => return Ok(Told::Lost(address)),
        }
        rest = after;
    }
    Ok(Told::Lines(text))
}
