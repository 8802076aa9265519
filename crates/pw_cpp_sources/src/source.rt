//! All files of a run, one behind the other.

ghost use Rattle.std.specs.Prelude.{◌≡◌, length, IfOk};
ghost use Rattle.pw_cpp_sources.specs.Sources as spec;
ghost use Rattle.pw_cpp_sources.specs.Sources.{digit, digits_of};

use pw_cpp_directives::Digits;
use pw_token::{Token, TokenKind};
use pw_value::Name;
use std::alloc::{AllocError, Global};

/// Where a file stands in the source.
#[derive(Clone, Copy)]
pub struct Place {
    pub from: usize,
    pub end: usize,
}

/// The files of a run: their bytes one behind the other, and where each stands.
#[derive(Drop)]
pub struct Source {
    pub bytes: Vec<u8>,
    pub spans: Vec<Place>,
}

/// What stands before all files, and between two of them a newline, so that no backslash of another file stands before the first byte
/// of one.
const DIGITS: &[u8] = b"0 1 ";

fn digit(at: usize) -> Token
    ensures { result ≡ digit at }
{
    Token {
        kind: TokenKind::Number,
        at,
        len: 1,
    }
}

/// The tokens of the digits `0` and `1` at the beginning of every source, by which conditions write what is not
/// defined and what is (C90 6.8.1).
pub fn digits() -> Digits
    ensures { result ≡ digits_of }
{
    Digits {
        zero: digit(0),
        one: digit(2),
    }
}

/// All files of a run in one text: the digits, and then of each file a newline and its bytes; and of each file, in
/// the same order, where its bytes stand. Fails only for want of memory.
pub fn source_of(alloc: Global, files: &[(Name, Vec<u8>)]) -> Result<Source, AllocError>
    ensures bytes { IfOk result (λ source. source.bytes.items ≡ spec.source_of (spec.texts_of files.now)) }
    ensures count { IfOk result (λ source. length source.spans.items ≡ length files.now) }
    ensures spans { IfOk result (λ source. spec.files_of (spec.names_of files.now) source.spans.items ≡ spec.spans_of (spec.texts_of files.now)) }
{
    let mut bytes = Vec::from_slice(alloc, DIGITS)?;
    let mut spans = Vec::new(alloc);
    for (_, text) in files {
        bytes.push(b'\n')?;
        let from = bytes.len();
        bytes.extend_from_slice(text.as_slice())?;
        let end = bytes.len();
        spans.push(Place { from, end })?;
    }
    Ok(Source { bytes, spans })
}
