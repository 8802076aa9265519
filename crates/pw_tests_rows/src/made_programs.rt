//! Made programs of two modules.

use crate::texts::push_text;
use pw_gen::generate;
use pw_rows::Text;
use std::alloc::AllocError;

/// Adds the files of the program of a number, each by its name and its text.
pub fn push_program(text: &mut Text, number: &str) {
    match generate(text.alloc(), number.parse::<u32>().unwrap_or(0), 2) {
        Ok(files) => push_files(text, &files),
        Err(AllocError) => text.cut(),
    }
}

/// Adds files.
fn push_files(text: &mut Text, files: &[(String, Vec<u8>)]) {
    for file in files {
        text.push(b" ");
        text.push(file.0.as_bytes());
        push_text(text, &file.1);
    }
}
