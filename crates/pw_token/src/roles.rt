//! What a token means for nesting.

ghost use Rattle.std.specs.Prelude.{◌≡◌, ◌≤◌, ◌+◌, length};
ghost use Rattle.pw_token.specs.Roles as spec;

use crate::bytes::text_from;
use crate::symbol::{Keyword, Mark};
use crate::token::{Token, TokenKind};

/// What the rules of nesting know a token as.
#[derive(Clone, Copy)]
pub enum Role {
    /// An identifier, a constant or a string.
    Operand,
    OpenParen,
    /// `[` or `{`.
    Open,
    Question,
    Colon,
    CloseParen,
    CloseBracket,
    CloseBrace,
    /// `++` or `--`.
    Step,
    /// `-`, `+`, `*`, `&`, `!`, `~` or `sizeof`.
    Unary,
    /// `=` or a compound assignment operator.
    Assignment,
    If,
    Else,
    /// `for` or `switch`.
    Loop,
    While,
    Do,
    Comma,
    Semicolon,
    /// Any other token, and the end of the text.
    Other,
}

/// The role of a keyword.
fn keyword_role(keyword: Keyword) -> Role
    ensures { result ≡ spec.keyword_role keyword }
{
    match keyword {
        Keyword::Sizeof => Role::Unary,
        Keyword::If => Role::If,
        Keyword::Else => Role::Else,
        Keyword::For | Keyword::Switch => Role::Loop,
        Keyword::While => Role::While,
        Keyword::Do => Role::Do,
        _ => Role::Other,
    }
}

/// The role of a mark.
fn mark_role(mark: Mark) -> Role
    ensures { result ≡ spec.mark_role mark }
{
    match mark {
        Mark::OpenParen => Role::OpenParen,
        Mark::OpenBracket | Mark::OpenBrace => Role::Open,
        Mark::Question => Role::Question,
        Mark::Colon => Role::Colon,
        Mark::CloseParen => Role::CloseParen,
        Mark::CloseBracket => Role::CloseBracket,
        Mark::CloseBrace => Role::CloseBrace,
        Mark::Minus | Mark::Plus | Mark::Star | Mark::Ampersand | Mark::Exclamation | Mark::Tilde =>
            Role::Unary,
        Mark::Increment | Mark::Decrement => Role::Step,
        Mark::Equal
        | Mark::StarEqual
        | Mark::SlashEqual
        | Mark::PercentEqual
        | Mark::PlusEqual
        | Mark::MinusEqual
        | Mark::LeftShiftEqual
        | Mark::RightShiftEqual
        | Mark::AmpersandEqual
        | Mark::CaretEqual
        | Mark::BarEqual => Role::Assignment,
        Mark::Comma => Role::Comma,
        Mark::Semicolon => Role::Semicolon,
        _ => Role::Other,
    }
}

/// The bytes of a token.
pub fn spelling<'a>(text: &'a [u8], token: &Token) -> &'a [u8]
    requires { token.now.at + token.now.len ≤ length text.now }
    ensures { result.now ≡ spec.spelling text.now token.now }
{
    let rest = text_from(text, token.at);
    &rest[..token.len]
}

/// What the rules of nesting know a token of the text as.
pub fn role_in(text: &[u8], token: &Token) -> Role
    requires { token.now.at + token.now.len ≤ length text.now }
    ensures { result ≡ spec.role_in text.now token.now }
{
    match token.kind {
        TokenKind::Keyword => match Keyword::with_text(spelling(text, token)) {
            Some(keyword) => keyword_role(keyword),
            None => Role::Other,
        },
        TokenKind::Mark => match Mark::with_text(spelling(text, token)) {
            Some(mark) => mark_role(mark),
            None => Role::Other,
        },
        TokenKind::Directive => Role::Other,
        TokenKind::Identifier
        | TokenKind::Number
        | TokenKind::Floating
        | TokenKind::Character
        | TokenKind::Text
        | TokenKind::Wide => Role::Operand,
    }
}
