//! The rows of the output.

ghost use Rattle.std.specs.Prelude.{◌≡◌, ◌≤◌, ◌++◌, ◌∷◌, [], drop, length, take, IfOk, OnOk};
ghost use Rattle.pw_cpp_expand.specs.Numbered.{all_named};
ghost use Rattle.pw_cpp_sets.specs.Sets.{Known};
ghost use Rattle.pw_cpp_sources.specs.Rows as spec;
ghost use Rattle.pw_cpp_sources.specs.Rows.{AreInRows, output_of, rows_of, spelled_tokens};

use pw_cpp_expand::Lexeme;
use pw_cpp_macros::spelled;
use std::alloc::AllocError;

/// Whether a place is that of the next row or behind it, if there is one.
fn is_reached(next: Option<usize>, place: usize) -> bool
    ensures { result ≡ spec.is_reached next place }
{
    match next {
        Some(next) => next <= place,
        None => false,
    }
}

/// How many tokens stand before the next row.
fn row_len(next: Option<usize>, tokens: &[Lexeme]) -> usize
    ensures value { result ≡ spec.row_len next tokens.now }
    ensures within { result ≤ length tokens.now }
{
    let mut len = 0;
    let mut rest = tokens;
    while let [first, after @ ..] = rest {
        if is_reached(next, first.place) {
            return len;
        }
        len += 1;
        rest = after;
    }
    len
}

/// So many of the first tokens.
fn tokens_before(tokens: &[Lexeme], count: usize) -> &[Lexeme]
    ensures { result.now ≡ take count tokens.now }
{
    if count < tokens.len() {
        &tokens[..count]
    } else {
        tokens
    }
}

/// The tokens from a number of them on.
fn tokens_from(tokens: &[Lexeme], from: usize) -> &[Lexeme]
    ensures { result.now ≡ drop from tokens.now }
{
    if from < tokens.len() {
        &tokens[from..]
    } else {
        &[]
    }
}

/// Puts out tokens, each with a space behind it.
fn put_tokens(source: &[u8], tokens: &[Lexeme], out: &mut Vec<u8>) -> Result<(), AllocError>
    ensures { OnOk result (out.new.items ≡ out.old.items ++ spelled_tokens source.now tokens.now) }
{
    for lexeme in tokens {
        out.extend_from_slice(spelled(source, lexeme.token))?;
        out.push(b' ')?;
    }
    Ok(())
}

/// Puts out a row of tokens.
fn put_row(source: &[u8], tokens: &[Lexeme], out: &mut Vec<u8>) -> Result<(), AllocError>
    ensures { OnOk result (out.new.items ≡ out.old.items ++ (spelled_tokens source.now tokens.now ++ 10 ∷ [])) }
{
    put_tokens(source, tokens, out)?;
    out.push(b'\n')?;
    Ok(())
}

/// The place of the first row, if there is one.
fn first_row(rows: &[usize]) -> Option<usize>
    ensures { result ≡ spec.first_row rows.now }
{
    match rows {
        [first, ..] => Some(*first),
        [] => None,
    }
}

/// Puts out rows: each token in the row in which its place lies. The rows and the tokens stand in the order of their places.
pub fn put_rows(
    source: &[u8],
    rows: &[usize],
    tokens: &[Lexeme],
    out: &mut Vec<u8>,
) -> Result<(), AllocError>
    requires { AreInRows rows.now tokens.now }
    ensures { OnOk result ((known : Known) → out.new.items ≡ out.old.items ++ output_of source.now (rows_of rows.now (all_named known tokens.now))) }
{
    let mut places = rows;
    let mut left = tokens;
    while let [_, later @ ..] = places {
        let count = row_len(first_row(later), left);
        put_row(source, tokens_before(left, count), out)?;
        left = tokens_from(left, count);
        places = later;
    }
    Ok(())
}
