//! A test of the parser: a program that reads texts of C, one a line, and prints for each its line's number and the
//! shape of its tree, or why it has none.
//!
//! A line that is empty or begins with `#` is a heading and is printed as it is. Behind a `?` at its beginning only
//! the verdict on a text is printed. In a text `@` stands for a newline.
#![tactic(auto)]

mod answer;
mod shape;
mod shape_decl;
mod shape_declarator;
mod shape_expr;
mod shape_module;
mod shape_specifiers;
mod shape_stmt;

use answer::{Wanted, push_answer};
use pw_rows::{Program, Text, answer_rows};
use std::alloc::{AllocError, Global};
use std::io;

/// Shapes of texts.
#[derive(Drop)]
struct Texts;

/// A text with a newline for each `@`.
fn with_newlines(alloc: Global, source: &str) -> Result<Vec<u8>, AllocError> {
    let mut bytes = Vec::from_slice(alloc, source.as_bytes())?;
    for byte in bytes.iter_mut() {
        if *byte == b'@' {
            *byte = b'\n';
        }
    }
    Ok(bytes)
}

/// Adds what is printed for a text.
fn push_text(text: &mut Text, source: &str, wanted: Wanted) {
    match with_newlines(text.alloc(), source) {
        Ok(source) => push_answer(text, &source, wanted),
        Err(AllocError) => text.cut(),
    }
}

/// Adds what is printed for a row that is no heading.
fn push_row(text: &mut Text, number: usize, row: &str) {
    text.display(&number);
    text.push(b" ");
    match row.strip_prefix('?') {
        Some(source) => push_text(text, source, Wanted::Verdict),
        None => push_text(text, row, Wanted::Shape),
    }
}

impl Program for Texts {
    fn answer(&mut self, text: &mut Text, number: usize, row: &str) {
        if row.is_empty() || row.starts_with('#') {
            text.push(row.as_bytes());
        } else {
            push_row(text, number, row);
        }
        text.push(b"\n");
    }
}

fn main(rt: HostRuntime) -> io::Result<()> {
    answer_rows(rt.alloc(), rt.reader(), &mut rt.stdout(), &mut Texts)
}
