//! What a command tells, in one line.

use crate::texts::push_text;
use pw_rows::Text;
use std::alloc::Global;

/// The most bytes of an output that are printed themselves.
const MOST: usize = 1000;

/// What came first in a table: the bytes of an image, and what was told of one. Empty where there was none.
#[derive(Drop)]
pub struct First {
    image: Vec<u8>,
    report: Vec<u8>,
}

impl First {
    /// What stands before the first row: no image, and no report.
    pub fn new(alloc: Global) -> First {
        First {
            image: Vec::new(alloc),
            report: Vec::new(alloc),
        }
    }
}

/// What a command tells: its status, what it put out and what `err` took, the names that it put, in order, and the bytes of
/// the image behind it, or none.
#[derive(Clone, Copy)]
pub struct Told<'a> {
    pub status: u8,
    pub out: &'a [u8],
    /// What was put out is told as it is, with the bytes and the digest of each image.
    pub as_it_is: bool,
    pub err: &'a [u8],
    pub puts: &'a [String],
    pub image: &'a [u8],
}

/// Adds a word and whether bytes are the first ones, which they are where there were none so far.
fn push_place(text: &mut Text, word: &[u8], first: &mut Vec<u8>, bytes: &[u8]) {
    if first.is_empty() && first.extend_from_slice(bytes).is_err() {
        text.cut();
    }
    text.push(word);
    text.push(if first.as_slice() == bytes {
        b"first"
    } else {
        b"other"
    });
}

/// Adds a line of an output, with the bytes and the digest of an image as the first or another one's.
fn push_line(text: &mut Text, first: &mut Vec<u8>, line: &str) {
    let Some((front, rest)) = line.split_once("image ") else {
        return text.push(line.as_bytes());
    };
    text.push(front.as_bytes());
    match rest.split_once(" stop") {
        Some((image, stop)) => {
            push_place(text, b"image ", first, image.as_bytes());
            text.push(b" stop");
            text.push(stop.as_bytes());
        }
        None => push_place(text, b"image ", first, rest.as_bytes()),
    }
}

/// Adds the lines of an output.
fn push_lines(text: &mut Text, first: &mut Vec<u8>, lines: &str) {
    text.push(b"\"");
    for (index, line) in lines.split('\n').enumerate() {
        if index > 0 {
            text.push(b"\\n");
        }
        push_line(text, first, line);
    }
    text.push(b"\"");
}

/// Adds an output, with the bytes and the digests of images as they are, or as the first or other ones.
fn push_output(text: &mut Text, first: &mut Vec<u8>, out: &[u8], as_it_is: bool) {
    text.push(b" out");
    if as_it_is {
        return push_text(text, out);
    }
    text.push(b" ");
    if out.len() > MOST {
        text.display(&out.len());
        text.push(b" bytes");
    } else {
        push_lines(text, first, str::from_utf8(out).unwrap_or("no text"));
    }
}

/// Adds names.
fn push_names(text: &mut Text, names: &[String]) {
    text.push(b" puts");
    for name in names {
        text.push(b" ");
        text.push(name.as_bytes());
    }
}

/// Adds what a command tells; of an output, `err`, names and an image only where there is one.
pub fn push_told(text: &mut Text, first: &mut First, told: &Told<'_>) {
    text.push(b" ");
    text.display(&told.status);
    if !told.out.is_empty() {
        push_output(text, &mut first.report, told.out, told.as_it_is);
    }
    if !told.err.is_empty() {
        text.push(b" err");
        push_text(text, told.err);
    }
    if !told.puts.is_empty() {
        push_names(text, told.puts);
    }
    if !told.image.is_empty() {
        push_place(text, b" image ", &mut first.image, told.image);
    }
}
