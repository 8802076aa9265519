//! The lines of a listing's words.

ghost use Rattle.std.specs.Prelude.{◌≡◌, ◌++◌, ◌+◌, ◌*◌, ◌<◌, ◌≤◌, ◌^◌, length, IfOk, OnOk, codes};
ghost use Rattle.std.specs.String.{string_bytes};
ghost use Rattle.pw_inst.specs.Listing.{hexadecimal};
ghost use Rattle.pw_list.specs.Listing.{instruction, word_line, word_lines};

use pw_inst::{decode, text};
use std::alloc::{AllocError, Global};

/// Puts the instruction of a word behind a text, `?` for a word that is none.
fn push_instruction(
    alloc: Global,
    out: &mut Vec<u8>,
    address: u32,
    word: u32,
) -> Result<(), AllocError>
    ensures { OnOk result (out.new.items ≡ out.old.items ++ instruction address word) }
{
    match decode(word) {
        Some(inst) => out.extend_from_slice(text(alloc, inst, address)?.as_bytes())?,
        None => out.extend_from_slice(b"?")?,
    }
    Ok(())
}

/// An address and the word there, as eight hexadecimal digits each.
#[tactic(auto, using(pw_inst::proofs::HexadecimalLemmas::hexadecimal_of_word))]
fn address_and_word(alloc: Global, address: u32, word: u32) -> Result<String, AllocError>
    ensures { IfOk result (λ s. string_bytes s ≡ hexadecimal 8 address ++ codes " " ++ hexadecimal 8 word ++ codes " ") }
{
    format!(in alloc; "{address:08x} {word:08x} ")
}

/// Puts a word's line behind a text.
#[tactic(auto, unfolding(crate::specs::Listing::word_line))]
fn push_word(alloc: Global, out: &mut Vec<u8>, address: u32, word: u32) -> Result<(), AllocError>
    ensures { OnOk result (out.new.items ≡ out.old.items ++ word_line address word) }
{
    out.extend_from_slice(address_and_word(alloc, address, word)?.as_bytes())?;
    push_instruction(alloc, out, address, word)?;
    out.extend_from_slice(b"\n")?;
    Ok(())
}

/// Puts the lines of words that stand from an address on behind a text.
pub fn push_words(
    alloc: Global,
    out: &mut Vec<u8>,
    words: &[u32],
    start: u32,
) -> Result<(), AllocError>
    requires { start + 4 * length words.now < 2 ^ 32 }
    ensures { OnOk result (out.new.items ≡ out.old.items ++ word_lines start words.now) }
{
    let mut address = start;
    for word in words {
        push_word(alloc, out, address, *word)?;
        address += 4;
    }
    Ok(())
}
