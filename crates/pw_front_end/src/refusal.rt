//! Why a module's text is refused.

ghost use Rattle.std.specs.Prelude.{◌≡◌};

use pw_check_walk::CheckFault;
use pw_parse::ParseFault;
use pw_token::{Feature, LexFault};
use thiserror::Error;

/// Why a module is refused.
#[derive(Clone, Copy, Debug, PartialEq, Eq)]
pub enum Refusal {
    /// The text has no tokens.
    Lex(LexFault),
    /// The token of this number, from 1, is the first of something that is not compiled.
    Unsupported(usize, Feature),
    /// The tokens have no syntax tree.
    Parse(ParseFault),
    /// The tree breaks a constraint of the language or passes a limit. The front end by itself never says so.
    Check(CheckFault),
}

/// Why the front end gives no syntax tree.
#[derive(Clone, Copy, Debug, Error)]
pub enum FrontEndFault {
    /// The text is refused. The refusal is never want of memory.
    #[error("the text is refused")]
    Refused(Refusal),
    /// There was no memory for the tokens or for the tree.
    #[error("memory ran out")]
    NoMemory,
}

impl From<LexFault> for FrontEndFault {
    ghost use Rattle.pw_front_end.specs.AnswersTree.{error_of};

    ghost from_gives = { λ fault error. error ≡ error_of fault };

    fn from(fault: LexFault) -> Self {
        match fault {
            LexFault::NoMemory => FrontEndFault::NoMemory,
            LexFault::Bad { .. } | LexFault::TooLong | LexFault::TooMany { .. } => {
                FrontEndFault::Refused(Refusal::Lex(fault))
            }
        }
    }
}

impl From<ParseFault> for FrontEndFault {
    ghost use Rattle.pw_front_end.specs.AnswersTree.{parse_error_of};

    ghost from_gives = { λ fault error. error ≡ parse_error_of fault };

    fn from(fault: ParseFault) -> Self {
        match fault {
            ParseFault::NoMemory => FrontEndFault::NoMemory,
            ParseFault::TooDeep { .. } | ParseFault::Syntax { .. } => {
                FrontEndFault::Refused(Refusal::Parse(fault))
            }
        }
    }
}
