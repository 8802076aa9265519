//! The functions of object files as text.

use crate::shown::{push_value, push_word};
use pw_fields::FieldFault;
use pw_fields::names::read_names;
use pw_object::ObjectFn;
use pw_object::functions::read_function;
use pw_rows::Text;
use pw_value::FileError;
use std::alloc::Global;

/// Adds a function: its name, its frame, its words, and its relocations.
fn push_function(text: &mut Text, function: &ObjectFn) {
    push_word(text, function.name.as_bytes());
    push_value(text, &function.frame);
    push_value(text, &function.words.as_slice());
    push_value(text, &function.fixes.as_slice());
}

/// Adds a bar and then each function of an object file.
pub fn push_functions(text: &mut Text, functions: &[ObjectFn]) {
    text.push(b" |");
    for function in functions {
        push_function(text, function);
    }
}

/// The function behind a table of names, and what is left behind it.
fn read_behind_names(alloc: Global, bytes: &[u8]) -> Result<(ObjectFn, &[u8]), FieldFault> {
    let (names, rest) = read_names(alloc, bytes)?;
    read_function(alloc, &names, rest)
}

/// Reads a function with its names, and tells a fault by its offset.
pub fn read_named(alloc: Global, bytes: &[u8]) -> Result<(ObjectFn, &[u8]), FileError> {
    match read_behind_names(alloc, bytes) {
        Ok(read) => Ok(read),
        Err(error) => Err(error.at(bytes.len())),
    }
}

/// Adds the function behind a table of names and what is left behind it.
pub fn push_function_file(text: &mut Text, bytes: &[u8]) {
    match read_named(text.alloc(), bytes) {
        Ok((function, rest)) => {
            push_function(text, &function);
            push_value(text, &rest);
        }
        Err(error) => text.debug(&error),
    }
}
