//! What a token of a text is for the grammar.

ghost use Rattle.std.specs.Prelude.{◌≡◌, ◌≤◌, ◌+◌, length};
ghost use Rattle.pw_tree.specs.Lexemes.{view_lexeme, spelled_in};
ghost use Rattle.pw_tree.specs.Symbols.{symbol_of};

use pw_token::{Keyword, Mark, Token, TokenKind, spelling};

/// A token as the grammar knows it, with its bytes where they are its own.
#[derive(Clone, Copy)]
pub enum Lexeme<'a> {
    /// A keyword (C90 6.1.1).
    Keyword(Keyword),
    /// An operator but `sizeof`, or a punctuator (6.1.5, 6.1.6).
    Mark(Mark),
    /// An identifier (6.1.2).
    Identifier(&'a [u8]),
    /// An integer constant (6.1.3.2).
    Number(&'a [u8]),
    /// A floating constant (6.1.3.1).
    Floating(&'a [u8]),
    /// A character constant (6.1.3.4).
    Character(&'a [u8]),
    /// A wide character constant or a wide string literal.
    Wide(&'a [u8]),
    /// A string literal.
    Text(&'a [u8]),
    /// A token that stands in no tree: a directive line, `#` or `##`.
    Other,
}

/// What a token of a text is, with its bytes.
pub fn lexeme_of<'a>(text: &'a [u8], token: &Token) -> Lexeme<'a>
    requires { token.now.at + token.now.len ≤ length text.now }
    ensures { view_lexeme result ≡ symbol_of (spelled_in text.now token.now) }
{
    let bytes = spelling(text, token);
    match token.kind {
        TokenKind::Keyword => match Keyword::with_text(bytes) {
            Some(keyword) => Lexeme::Keyword(keyword),
            None => Lexeme::Other,
        },
        TokenKind::Mark => match Mark::with_text(bytes) {
            Some(mark) => Lexeme::Mark(mark),
            None => Lexeme::Other,
        },
        TokenKind::Identifier => Lexeme::Identifier(bytes),
        TokenKind::Number => Lexeme::Number(bytes),
        TokenKind::Floating => Lexeme::Floating(bytes),
        TokenKind::Character => Lexeme::Character(bytes),
        TokenKind::Wide => Lexeme::Wide(bytes),
        TokenKind::Text => Lexeme::Text(bytes),
        TokenKind::Directive => Lexeme::Other,
    }
}
