//! Words of command lines, and files of a store.

use pw_io::{Left, MemStore, Store, StoreFail};
use pw_rows::Text;
use std::alloc::AllocError;

/// Adds a word to others.
fn push_word(text: &mut Text, words: &mut Vec<String>, word: &str) {
    match String::from_str(text.alloc(), word) {
        Ok(word) => {
            if words.push(word).is_err() {
                text.cut();
            }
        }
        Err(AllocError) => text.cut(),
    }
}

/// The words of a command line.
pub fn words_of(text: &mut Text, line: &str) -> Vec<String> {
    let mut words = Vec::new(text.alloc());
    for word in line.split_whitespace() {
        push_word(text, &mut words, word);
    }
    words
}

/// What a put that fails leaves, in words.
fn left_of(way: &str) -> Left {
    match way {
        "" | "old" => Left::Old,
        "nothing" => Left::Nothing,
        _ => Left::Prefix(way.parse::<usize>().unwrap_or(0)),
    }
}

/// Begins with a store of no files; a row may say which of its calls fails, and what a put then leaves.
pub fn renew(text: &mut Text, store: &mut MemStore, row: &str) {
    let (call, way) = row.split_once(' ').unwrap_or((row, ""));
    let fails = StoreFail {
        call: call.parse::<u64>().unwrap_or(0),
        leaves: left_of(way),
    };
    match MemStore::new(text.alloc(), &[], &[fails]) {
        Ok(made) => *store = made,
        Err(AllocError) => text.cut(),
    }
}

/// Puts a file into the store; where that fails, the row's text is cut off.
pub fn put_file<S: Store>(text: &mut Text, store: &mut S, name: &str, bytes: &[u8]) {
    if store.put(text.alloc(), name, bytes).is_err() {
        text.cut();
    }
}

/// Puts the file of a number.
fn put_numbered<S: Store>(text: &mut Text, store: &mut S, number: u32, bytes: &[u8]) {
    match format!(in text.alloc(); "m{number:03}.i") {
        Ok(name) => put_file(text, store, name.as_str(), bytes),
        Err(AllocError) => text.cut(),
    }
}

/// Puts so many files of these bytes.
pub fn put_many<S: Store>(text: &mut Text, store: &mut S, count: &str, bytes: &[u8]) {
    for number in 0..count.parse::<u32>().unwrap_or(0) {
        put_numbered(text, store, number, bytes);
    }
}

/// Takes a file out of the store; where that fails, the row's text is cut off.
pub fn remove_file<S: Store>(text: &mut Text, store: &mut S, name: &str) {
    if store.remove(text.alloc(), name).is_err() {
        text.cut();
    }
}
