//! The tokens of a text.

ghost use Rattle.std.specs.Prelude.{◌≡◌, ◌≤◌, ◌++◌, ◌⊎◌, ℕ, List, Result, Ok, length, vec_len, IfOk, OnOk, IfErr, IsErrOf};
ghost use Rattle.pw_token.specs.Limits.{text_limit, token_limit};
ghost use Rattle.pw_token.specs.Tokenization.{Answers, AnswersLexing, IsBad, IsLexed, IsTooLong, IsTooMany, Lexes, Keeps, line_start_after, token_in};
ghost use Rattle.pw_token.specs.declared.token.LexFault.{LexFault};
ghost use Rattle.pw_token.specs.declared.token.Token.{Token};

use crate::piece::{PieceKind, piece_at};
use crate::token::{LexFault, Token};
use std::alloc::Global;

/// The greatest length of a text, in bytes.
pub const TEXT_LIMIT: usize = 1_048_576;

/// The greatest count of tokens.
pub const TOKEN_LIMIT: usize = 200_000;

fn line_start_after(line_start: bool, kind: PieceKind, text: &[u8]) -> bool
    ensures { result ≡ line_start_after line_start kind text.now }
{
    match kind {
        PieceKind::Blank => line_start || text.contains(&b'\n'),
        PieceKind::Comment | PieceKind::LineMarker | PieceKind::Token(_) => false,
    }
}

/// Adds the token that a piece is, if it is one.
fn keep(tokens: &mut Vec<Token>, kind: PieceKind, at: usize, len: usize) -> Result<(), LexFault>
    requires { vec_len tokens.old ≤ token_limit }
    ensures kept { OnOk result (tokens.new.items ≡ tokens.old.items ++ token_in kind at len) }
    ensures few { OnOk result (length tokens.new.items ≤ token_limit) }
    ensures fault { IfErr result (λ fault. Keeps kind at (vec_len tokens.old) fault) }
{
    if let PieceKind::Token(kind) = kind {
        if tokens.len() == TOKEN_LIMIT {
            return Err(LexFault::TooMany { at });
        }
        tokens.push(Token { kind, at, len })?;
    }
    Ok(())
}

fn cut(alloc: Global, text: &[u8]) -> Result<Vec<Token>, LexFault>
    ensures { AnswersLexing text.now (λ tokens. tokens.items) result }
{
    if TEXT_LIMIT < text.len() {
        return Err(LexFault::TooLong);
    }
    let mut tokens = Vec::new(alloc);
    let mut at = 0;
    let mut line_start = true;
    while at < text.len() {
        let rest = &text[at..];
        let Some((kind, len)) = piece_at(line_start, rest) else {
            return Err(LexFault::Bad { at });
        };
        keep(&mut tokens, kind, at, len)?;
        line_start = line_start_after(line_start, kind, &rest[..len]);
        at += len;
    }
    Ok(tokens)
}

/// The tokens of a text, in the order of their places.
pub fn lex(alloc: Global, text: &[u8]) -> Result<Vec<Token>, LexFault>
    // The whole text is cut into blanks, comments, line markers and these tokens.
    ensures tokens { IfOk result (λ tokens. IsLexed text.now tokens.items) }

    // Each fault comes only where the text has it.
    ensures too_long { IsErrOf result LexFault.TooLong → IsTooLong text.now }
    ensures bad { (at : ℕ) → IsErrOf result (LexFault.Bad at) → IsBad text.now at }
    ensures too_many { (at : ℕ) → IsErrOf result (LexFault.TooMany at) → IsTooMany text.now at }

    // What the text's tokens or its fault are, that is answered, unless memory ran out.
    ensures only { (answer : Result (List Token) LexFault) → Lexes text.now answer → Answers (λ tokens. tokens.items) result answer }
{
    cut(alloc, text)
}
