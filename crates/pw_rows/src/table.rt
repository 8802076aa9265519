//! The rows of an input.

use crate::text::Text;
use std::alloc::Global;
use std::io::{self, Read, Write};

/// What answers rows, one behind another.
pub trait Program {
    /// Adds what is put out for a row, with the line's number, counted from 1.
    fn answer(&mut self, text: &mut Text, number: usize, row: &str);
}

/// The answers to rows.
fn answers<P: Program>(alloc: Global, rows: &str, program: &mut P) -> Text {
    let mut text = Text::new(alloc);
    for (index, row) in rows.lines().enumerate() {
        program.answer(&mut text, index + 1, row);
    }
    text
}

/// Puts out the answers to the lines of an input, all of them at its end; nothing where memory was refused.
pub fn answer_rows<I: Read + Drop, O: Write, P: Program>(
    alloc: Global,
    input: I,
    out: &mut O,
    program: &mut P,
) -> io::Result<()> {
    let rows = io::read_to_string(alloc, input)?;
    let answered = answers(alloc, &rows, program).into_bytes()?;
    out.write_all(&answered)
}
