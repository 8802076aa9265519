//! What is passed over.

ghost use Rattle.std.specs.Prelude.{◌≡◌, ◌≤◌, ◌<◌, ◌+◌, ◌-◌, drop, length, slice_index, IfSome};
ghost use Rattle.pw_cpp_lines.specs.Lines.{PassesSpace, space_len};
ghost use Rattle.pw_cpp_lines.specs.Passing.{PassesLine, PassesRest, comment_found, is_bare_newline, is_raw_end, opens_comment, or_else, step_len};
ghost use Rattle.pw_cpp_lines.specs.Walking.{AreUnclosed, IsStep, Walked};

use crate::line::{behind_line, is_line_end, is_space};
use crate::quotes::Unclosed;
use pw_token::{PieceKind, byte_at, piece_at};

/// What is passed over from a place on.
#[derive(Clone, Copy)]
pub enum Passed {
    /// The blanks and comments of a line.
    Space,
    /// A line, up to its end wherever that stands.
    Rest,
    /// A line in which comments count, and quotes that close hide them.
    Line,
}

fn is_bare_newline(text: &[u8], at: usize) -> bool
    ensures { result ≡ is_bare_newline text.now at }
{
    byte_at(text, at) == b'\n' && byte_at(text, at.saturating_sub(1)) != b'\\'
}

fn is_raw_end(text: &[u8], at: usize) -> bool
    ensures { result ≡ is_raw_end text.now at }
{
    text.len() <= at || is_bare_newline(text, at)
}

fn opens_comment(text: &[u8], at: usize) -> bool
    requires { at < length text.now }
    ensures { result ≡ opens_comment text.now at }
{
    byte_at(text, at) == b'/' && byte_at(text, at + 1) == b'*'
}

/// The length of the comment that was found, 0 where none was.
fn comment_found(found: Option<(PieceKind, usize)>) -> usize
    ensures { result ≡ comment_found found }
{
    match found {
        Some((PieceKind::Comment, len)) => len,
        _ => 0,
    }
}

fn or_else(len: usize, other: usize) -> usize
    ensures { result ≡ or_else len other }
{
    if len == 0 { other } else { len }
}

/// The length of the blank or comment that was found, 0 where none was.
fn space_len(found: Option<(PieceKind, usize)>) -> usize
    ensures { result ≡ space_len found }
{
    match found {
        Some((kind, len)) if is_space(kind) => len,
        _ => 0,
    }
}

fn space_step(text: &[u8], at: usize) -> Option<usize>
    requires { at ≤ length text.now }
    ensures step { IsStep Passed.Space text.now at result }
    ensures within { IfSome result (λ len. (0 < len) × (at + len ≤ length text.now)) }
{
    if is_line_end(text, at) {
        return None;
    }
    let len = space_len(piece_at(false, &text[at..]));
    if len == 0 {
        return None;
    }
    Some(len)
}

fn step_len(unclosed: &mut Unclosed, text: &[u8], at: usize) -> usize
    requires within { at < length text.now }
    requires unclosed { AreUnclosed text.now at unclosed.old }
    ensures value { result ≡ step_len text.now at }
    ensures some { 0 < result }
    ensures inside { at + result ≤ length text.now }
    ensures unclosed { AreUnclosed text.now at unclosed.new }
{
    if opens_comment(text, at) {
        let len = comment_found(piece_at(false, &text[at..]));
        return or_else(len, text.len() - at);
    }
    unclosed.len_at(text, at)
}

fn rest_step(text: &[u8], at: usize) -> Option<usize>
    requires { at ≤ length text.now }
    ensures step { IsStep Passed.Rest text.now at result }
    ensures within { IfSome result (λ len. (0 < len) × (at + len ≤ length text.now)) }
{
    if is_raw_end(text, at) {
        return None;
    }
    Some(1)
}

fn line_step(unclosed: &mut Unclosed, text: &[u8], at: usize) -> Option<usize>
    requires within { at ≤ length text.now }
    requires unclosed { AreUnclosed text.now at unclosed.old }
    ensures step { IsStep Passed.Line text.now at result }
    ensures within { IfSome result (λ len. (0 < len) × (at + len ≤ length text.now)) }
    ensures unclosed { AreUnclosed text.now at unclosed.new }
{
    if is_raw_end(text, at) {
        return None;
    }
    Some(step_len(unclosed, text, at))
}

/// The step that there is at a place.
fn step(passed: Passed, unclosed: &mut Unclosed, text: &[u8], at: usize) -> Option<usize>
    requires within { at ≤ length text.now }
    requires unclosed { AreUnclosed text.now at unclosed.old }
    ensures step { IsStep passed text.now at result }
    ensures within { IfSome result (λ len. (0 < len) × (at + len ≤ length text.now)) }
    ensures unclosed { AreUnclosed text.now at unclosed.new }
{
    match passed {
        Passed::Space => space_step(text, at),
        Passed::Rest => rest_step(text, at),
        Passed::Line => line_step(unclosed, text, at),
    }
}

/// Where what is passed over from a place on ends.
fn walk(passed: Passed, text: &[u8], at: usize) -> usize
    requires { at ≤ length text.now }
    ensures walked { Walked passed text.now at result }
    ensures within { result ≤ length text.now }
{
    let mut unclosed = Unclosed::new();
    let mut end = at;
    while let Some(len) = step(passed, &mut unclosed, text, end) {
        end += len;
    }
    end
}

/// Where the blanks and comments end that stand in a line from a place on.
pub fn pass_space(text: &[u8], at: usize) -> usize
    requires { at ≤ length text.now }
    ensures passed { PassesSpace text.now at result }
    ensures within { result ≤ length text.now }
{
    walk(Passed::Space, text, at)
}

/// Where the next line begins, of a line that is passed over from a place on: behind the first newline without a backslash
/// directly before it.
pub fn pass_rest(text: &[u8], at: usize) -> usize
    requires { at ≤ length text.now }
    ensures passed { PassesRest text.now at result }
    ensures within { result ≤ length text.now }
{
    behind_line(text, walk(Passed::Rest, text, at))
}

/// Where the next line begins, of a line that is passed over from its beginning on: no newline in a comment ends it, and no
/// comment opens between quotes that close in the line.
pub fn pass_line(text: &[u8], at: usize) -> usize
    requires { at ≤ length text.now }
    ensures passed { PassesLine text.now at result }
    ensures within { result ≤ length text.now }
{
    behind_line(text, walk(Passed::Line, text, at))
}
