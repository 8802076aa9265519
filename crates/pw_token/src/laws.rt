//! Laws of tokenization.

ghost use Rattle.std.specs.Prelude.{◌≡◌, ◌≤◌, ◌↔◌, ◌+◌, ℕ, Bool, true, List, [], Some, All, length};
ghost use Rattle.pw_token.specs.Limits.{text_limit, token_limit, nest_limit};
ghost use Rattle.pw_token.specs.Pieces.{piece_at};
ghost use Rattle.pw_token.specs.Tokenization.{BeginsWith, Cuts, IsLexed, Piece, StandInOrder};
ghost use Rattle.pw_token.specs.declared.piece.PieceKind.{PieceKind};
ghost use Rattle.pw_token.specs.declared.token.Token.{Token};

use crate::lexer::{TEXT_LIMIT, TOKEN_LIMIT};
use crate::nesting::NEST_LIMIT;

/// The limits of a text are those that its definitions speak of.
pub fn limits_of_a_text()
    ensures text { TEXT_LIMIT ≡ text_limit }
    ensures tokens { TOKEN_LIMIT ≡ token_limit }
    ensures nest { NEST_LIMIT ≡ nest_limit }
{}

/// A text has at most one cutting into blanks, comments, line markers and tokens.
pub fn one_cutting()
    ensures { (text : List ℕ) (pieces others : List Piece) (end last : Bool) → Cuts true text pieces end [] → Cuts true text others last [] → pieces ≡ others }
{}

/// The piece at the beginning of a text is the one that stands there; so at most one does.
pub fn piece_at_is_exact()
    ensures { (line_start : Bool) (text : List ℕ) (kind : PieceKind) (len : ℕ) → (piece_at line_start text ≡ Some (kind, len)) ↔ BeginsWith line_start kind len text }
{}

/// The tokens of a text lie in it, have bytes, and rise without overlap.
pub fn tokens_stand_in_order()
    ensures order { (text : List ℕ) (tokens : List Token) → IsLexed text tokens → StandInOrder 0 (length text) tokens }
    ensures within { (text : List ℕ) (tokens : List Token) → IsLexed text tokens → All (λ token. token.at + token.len ≤ length text) tokens }
{}
