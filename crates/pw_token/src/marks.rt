//! Which words are keywords, and how long the operator or punctuator at the beginning of a text is.

ghost use Rattle.std.specs.Prelude.{◌≡◌, ◌≤◌, ◌∷◌, [], length, map};
ghost use Rattle.pw_token.specs.Scanning.{longest_in};
ghost use Rattle.pw_token.specs.Words.{all_marks, is_keyword, mark_text, marks};

use crate::bytes::byte_at;
use crate::symbol::{Keyword, marks_from};

/// Whether a word is a keyword (C90 6.1.1).
pub fn is_keyword(word: &[u8]) -> bool
    ensures { result ≡ is_keyword word.now }
{
    Keyword::with_text(word).is_some()
}

/// The length of the word where it begins the text and is longer than the best so far, and the best otherwise.
fn longer(best: usize, word: &[u8], text: &[u8]) -> usize
    requires { best ≤ length text.now }
    ensures value { result ≡ longest_in best (word.now ∷ []) text.now }
    ensures within { result ≤ length text.now }
{
    if text.starts_with(word) && best < word.len() {
        word.len()
    } else {
        best
    }
}

/// The length of the longest mark of the grammar that begins the text, 0 where none does.
fn longest_mark(text: &[u8]) -> usize
    ensures value { result ≡ longest_in 0 (map mark_text all_marks) text.now }
    ensures within { result ≤ length text.now }
{
    let mut longest = 0;
    let mut rest = marks_from(byte_at(text, 0));
    while let [mark, after @ ..] = rest {
        longest = longer(longest, mark.text(), text);
        rest = after;
    }
    longest
}

/// The length of the longest operator or punctuator that begins the text, `#` and `##` among them, 0 where none does.
pub fn mark_len(text: &[u8]) -> usize
    ensures value { result ≡ longest_in 0 marks text.now }
    ensures within { result ≤ length text.now }
{
    let longest = longest_mark(text);
    if byte_at(text, 0) == b'#' {
        longer(longer(longest, b"#", text), b"##", text)
    } else {
        longest
    }
}
