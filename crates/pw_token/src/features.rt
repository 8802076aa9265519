//! Tokens of what is left out.

ghost use Rattle.std.specs.Prelude.{◌≡◌, ◌≤◌, ◌+◌, ◌-◌, Option, Some, length, IfSome, option_map, is_some, slice_get, option_and_then};
ghost use Rattle.std.specs.List.{position_from};
ghost use Rattle.pw_token.specs.Features.{feature_of};
ghost use Rattle.pw_token.specs.Tokenization.{IsLexed};

use crate::roles::spelling;
use crate::symbol::{Keyword, Mark};
use crate::token::{Feature, Token, TokenKind};

fn feature_of(text: &[u8], token: &Token) -> Option<Feature>
    requires { token.now.at + token.now.len ≤ length text.now }
    ensures { result ≡ feature_of text.now token.now }
{
    match token.kind {
        TokenKind::Floating => Some(Feature::Float),
        TokenKind::Wide => Some(Feature::Wide),
        TokenKind::Directive => Some(Feature::Directive),
        TokenKind::Keyword => match Keyword::with_text(spelling(text, token)) {
            Some(Keyword::Float | Keyword::Double) => Some(Feature::Float),
            _ => None,
        },
        TokenKind::Mark => match Mark::with_text(spelling(text, token)) {
            Some(Mark::Ellipsis) => Some(Feature::Variadic),
            _ => None,
        },
        TokenKind::Identifier | TokenKind::Number | TokenKind::Character | TokenKind::Text => None,
    }
}

/// The first token of a feature that is left out, counted from 1, and its feature.
pub fn unsupported(text: &[u8], tokens: &[Token]) -> Option<(usize, Feature)>
    requires { IsLexed text.now tokens.now }

    // The first token that has a feature, counted from 1.
    ensures token { option_map (λ found. found.0) result ≡ position_from (λ token. is_some (feature_of text.now token)) 1 tokens.now }
    ensures feature { IfSome result (λ found. option_and_then (feature_of text.now) (slice_get tokens.now (found.0 - 1)) ≡ Some found.1) }
{
    for (index, token) in tokens.iter().enumerate() {
        if let Some(feature) = feature_of(text, token) {
            return Some((index + 1, feature));
        }
    }
    None
}
