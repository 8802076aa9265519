//! Tokens by their spelling.

ghost use Rattle.std.specs.Prelude.{◌≡◌};
ghost use Rattle.pw_token.specs.Roles.{spelling};
ghost use Rattle.pw_cpp_macros.specs.Definitions as spec;

use pw_token::{Token, TokenKind};

/// The bytes of a token, as far as they stand in the text.
pub fn spelled<'a>(text: &'a [u8], token: Token) -> &'a [u8]
    ensures { result.now ≡ spelling text.now token }
{
    if text.len() <= token.at {
        return &[];
    }
    let rest = &text[token.at..];
    if token.len < rest.len() {
        return &rest[..token.len];
    }
    rest
}

/// Whether a token is a word, which may be a keyword.
pub fn is_word(token: Token) -> bool
    ensures { result ≡ spec.is_word token }
{
    matches!(token.kind, TokenKind::Identifier | TokenKind::Keyword)
}

/// Whether a token of a text has these bytes.
pub fn is_spelled(text: &[u8], bytes: &[u8], token: Token) -> bool
    ensures { result ≡ spec.is_spelled text.now bytes.now token }
{
    spelled(text, token) == bytes
}

/// Whether a token is one of the two operators of replacement lists (C90 6.8.3.2, 6.8.3.3): `#`, or `##`.
pub fn is_hash(text: &[u8], token: Token) -> bool
    ensures { result ≡ spec.is_hash text.now token }
{
    is_spelled(text, b"#", token) || is_spelled(text, b"##", token)
}
