//! The line on which a refusal stands.

ghost use Rattle.std.specs.Prelude.{◌≡◌, ◌≢◌, ◌-◌, [], IfOk, IsOk, Err, slice_get};
ghost use Rattle.std.specs.Option.{option_map_or};
ghost use Rattle.pw_token.specs.declared.token.LexFault.{LexFault};
ghost use Rattle.pw_front_end.specs.Lexed.{lexed};
ghost use Rattle.pw_front_end.specs.Places.{or_none, place_of, refusal_line, token_place, tokens_before, tokens_in};

use crate::refusal::Refusal;
use pw_parse::ParseFault;
use pw_token::{LexFault, TEXT_LIMIT, Token, lex, line_at};
use std::alloc::{AllocError, Global};

/// No tokens, for a text that does not lex. Want of memory is told on.
fn no_tokens(alloc: Global, fault: LexFault) -> Result<Vec<Token>, AllocError>
    ensures none { IfOk result (λ tokens. tokens.items ≡ []) }
    ensures fault { IfOk result (λ _. fault ≢ LexFault.NoMemory) }
    ensures only { fault ≢ LexFault.NoMemory → IsOk result }
{
    match fault {
        LexFault::NoMemory => Err(AllocError),
        LexFault::Bad { .. } | LexFault::TooLong | LexFault::TooMany { .. } => Ok(Vec::new(alloc)),
    }
}

/// The tokens of a text, none where it does not lex.
fn tokens_or_none(alloc: Global, text: &[u8]) -> Result<Vec<Token>, AllocError>
    ensures { IfOk result (λ tokens. tokens.items ≡ or_none (lexed text.now)) }
{
    match lex(alloc, text) {
        Ok(tokens) => Ok(tokens),
        Err(fault) => no_tokens(alloc, fault),
    }
}

/// The tokens before the fault of a text. Want of memory is told on.
fn tokens_before(alloc: Global, text: &[u8], fault: LexFault) -> Result<Vec<Token>, AllocError>
    ensures before { IfOk result (λ tokens. tokens.items ≡ tokens_before text.now (Err fault)) }
    ensures fault { IfOk result (λ _. fault ≢ LexFault.NoMemory) }
    ensures long { fault ≡ LexFault.TooLong → IsOk result }
{
    match fault {
        LexFault::NoMemory => Err(AllocError),
        LexFault::TooLong => Ok(Vec::new(alloc)),
        LexFault::Bad { at } | LexFault::TooMany { at } => {
            tokens_or_none(alloc, &text[..at.min(text.len())])
        }
    }
}

/// The tokens of a text; where it does not lex, those before its fault.
fn tokens_so_far(alloc: Global, text: &[u8]) -> Result<Vec<Token>, AllocError>
    ensures { IfOk result (λ tokens. tokens.items ≡ tokens_before text.now (lexed text.now)) }
{
    match lex(alloc, text) {
        Ok(tokens) => Ok(tokens),
        Err(fault) => tokens_before(alloc, text, fault),
    }
}

/// The tokens of a text as far as it can be cut.
fn tokens_in(alloc: Global, text: &[u8]) -> Result<Vec<Token>, AllocError>
    ensures { IfOk result (λ tokens. tokens.items ≡ tokens_in text.now) }
{
    tokens_so_far(alloc, &text[..TEXT_LIMIT.min(text.len())])
}

/// The place of the token of this number, counted from 1, or `end` where there is none.
fn place_among(tokens: &[Token], token: usize, end: usize) -> usize
    ensures { result ≡ option_map_or (λ token. token.at) (slice_get tokens.now (token - 1)) end }
{
    match tokens.get(token.saturating_sub(1)) {
        Some(token) => token.at,
        None => end,
    }
}

/// The place of the token of this number, counted from 1, or the end of the text where there is none.
fn token_place(alloc: Global, text: &[u8], token: usize) -> Result<usize, AllocError>
    ensures { IfOk result (λ place. place ≡ token_place text.now token) }
{
    let tokens = tokens_in(alloc, text)?;
    Ok(place_among(tokens.as_slice(), token, text.len()))
}

fn place_of(alloc: Global, text: &[u8], refusal: &Refusal) -> Result<usize, AllocError>
    ensures { IfOk result (λ place. place ≡ place_of text.now refusal.now) }
{
    match refusal {
        Refusal::Lex(LexFault::Bad { at } | LexFault::TooMany { at }) => Ok(*at),
        Refusal::Lex(LexFault::TooLong | LexFault::NoMemory)
        | Refusal::Parse(ParseFault::NoMemory) => Ok(0),
        Refusal::Unsupported(token, _) => token_place(alloc, text, *token),
        Refusal::Check(fault) => token_place(alloc, text, fault.token),
        Refusal::Parse(ParseFault::TooDeep { token } | ParseFault::Syntax { token }) => {
            token_place(alloc, text, *token)
        }
    }
}

/// The line on which a refusal of a text stands, counted from 1: that of its byte or of its token, the first for a
/// text that is too long, and the last where the token is behind all others. A text that does not lex has the tokens
/// before its fault.
///
/// # Errors
///
/// `AllocError` where there is no memory for the tokens.
#[tactic(auto, unfolding(crate::specs::Places::refusal_line))]
pub fn refusal_line(alloc: Global, text: &[u8], refusal: &Refusal) -> Result<usize, AllocError>
    ensures { IfOk result (λ line. line ≡ refusal_line text.now refusal.now) }
{
    let place = place_of(alloc, text, refusal)?;
    Ok(line_at(text, place))
}
