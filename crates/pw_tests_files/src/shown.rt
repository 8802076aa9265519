//! What several formats hold, as text.

use pw_rows::Text;
use pw_value::{Name, Shape};
use std::alloc::AllocError;
use std::fmt::Debug;

/// Adds a blank and a text.
pub fn push_word(text: &mut Text, word: &[u8]) {
    text.push(b" ");
    text.push(word);
}

/// Adds a blank and a value.
pub fn push_value<D: Debug>(text: &mut Text, value: &D) {
    text.push(b" ");
    text.debug(value);
}

/// Adds two texts and a value.
pub fn push_row<D: Debug>(text: &mut Text, first: &[u8], second: &[u8], value: &D) {
    push_word(text, first);
    push_word(text, second);
    push_value(text, value);
}

/// Adds a bar and then each name as a word.
pub fn push_names(text: &mut Text, names: &[Name]) {
    text.push(b" |");
    for name in names {
        push_word(text, name.as_bytes());
    }
}

/// Adds names with their shapes.
pub fn push_shaped(text: &mut Text, entries: &[(Name, Shape)]) {
    text.push(b" |");
    for entry in entries {
        push_word(text, entry.0.as_bytes());
        text.push(b":");
        text.push(entry.1.as_bytes());
    }
}

/// Adds whether what was written are these bytes.
pub fn push_again(text: &mut Text, written: Result<Vec<u8>, AllocError>, bytes: &[u8]) {
    let is_same = match &written {
        Ok(written) => written.as_slice() == bytes,
        Err(_) => false,
    };
    text.push(if is_same { b" | again" } else { b" | other" });
}
