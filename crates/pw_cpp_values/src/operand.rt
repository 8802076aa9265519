//! The operands of `#if`.

ghost use Rattle.std.specs.Prelude.{◌≡◌, option_map, IfOk};
ghost use Rattle.pw_check_literals.specs.Characters.{characters_of, one_character};
ghost use Rattle.pw_check_literals.specs.Integers.{integer_constant};
ghost use Rattle.pw_cpp_values.specs.Operands as spec;

use crate::arithmetic::Number;
use pw_check_literals::{IntegerConstant, NoMemory, character_constant, integer_constant};
use pw_token::TokenKind;
use std::alloc::Global;

fn long(word: u32) -> Number
    ensures { result ≡ spec.long word }
{
    Number {
        unsigned: false,
        word: Some(word),
    }
}

fn number_of(constant: IntegerConstant) -> Number
    ensures { result ≡ spec.number_of constant }
{
    Number {
        unsigned: !constant.kind.is_signed(),
        word: Some(constant.value),
    }
}

fn integer_number(bytes: &[u8]) -> Option<Number>
    ensures { result ≡ option_map spec.number_of (integer_constant bytes.now) }
{
    match integer_constant(bytes) {
        Some(constant) => Some(number_of(constant)),
        None => None,
    }
}

fn character_number(alloc: Global, bytes: &[u8]) -> Result<Option<Number>, NoMemory>
    ensures { IfOk result (λ found. found ≡ option_map spec.long (one_character (characters_of bytes.now))) }
{
    match character_constant(alloc, bytes)? {
        Some(word) => Ok(Some(long(word))),
        None => Ok(None),
    }
}

/// The number of a token of a kind with these bytes, or None where it is no operand.
pub fn operand_of(alloc: Global, kind: TokenKind, bytes: &[u8]) -> Result<Option<Number>, NoMemory>
    ensures { IfOk result (λ found. found ≡ spec.operand_of kind bytes.now) }
{
    match kind {
        TokenKind::Number => Ok(integer_number(bytes)),
        TokenKind::Character => character_number(alloc, bytes),
        TokenKind::Identifier | TokenKind::Keyword => Ok(Some(long(0))),
        TokenKind::Floating
        | TokenKind::Text
        | TokenKind::Wide
        | TokenKind::Mark
        | TokenKind::Directive => Ok(None),
    }
}
