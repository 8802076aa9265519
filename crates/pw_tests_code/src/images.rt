//! Images and refusals as texts.

use pw_image::{DataItem, Function, GlobalObject, Image, data_start};
use pw_rows::Text;
use pw_value::{LinkFault, Name};

/// How many functions of a map are the library's and the routines.
const ROUTINES: usize = 8;

/// Adds a blank and a name.
fn push_name(text: &mut Text, name: &Name) {
    text.push(b" ");
    text.push(name.as_bytes());
}

/// Adds a blank and a number.
fn push_number(text: &mut Text, number: u32) {
    text.push(b" ");
    text.display(&number);
}

/// Adds a word that has a mark, or a dash where the mark is one.
fn push_word(text: &mut Text, word: u32, mark: u8) {
    text.push(b" ");
    if mark == b'-' {
        text.push(b"-");
    } else {
        text.word(word);
    }
}

/// Adds the words that have marks, but for those whose mark is a dash.
fn push_words(text: &mut Text, words: &[u32], marks: &[u8]) {
    for (word, mark) in words.iter().zip(marks) {
        push_word(text, *word, *mark);
    }
    text.push(b" |");
}

/// Adds functions with their addresses and frames.
fn push_functions(text: &mut Text, functions: &[Function]) {
    for each in functions {
        push_name(text, &each.name);
        push_number(text, each.address);
        push_number(text, each.frame);
    }
    text.push(b" |");
}

/// Adds global objects with their offsets from the start of the data.
fn push_globals(text: &mut Text, start: u32, globals: &[GlobalObject]) {
    for each in globals {
        push_name(text, &each.name);
        push_number(text, each.address.wrapping_sub(start));
    }
    text.push(b" |");
}

/// Adds an item: its offset and its bytes.
fn push_item(text: &mut Text, item: &DataItem) {
    push_number(text, item.offset);
    text.push(b":");
    for byte in item.bytes.as_slice() {
        text.byte(*byte);
    }
}

/// The address at which the data start behind words.
fn start_behind(words: &[u32]) -> u32 {
    let words = u32::try_from(words.len()).unwrap_or(0);
    u32::try_from(data_start(words)).unwrap_or(0)
}

/// Adds what an image is, as far as it rests on no word of a routine.
pub fn push_image(text: &mut Text, image: &Image, marks: &[u8]) {
    let memory = &image.memory;
    let known = image.functions.len().saturating_sub(ROUTINES);
    text.push(b"ok");
    push_number(text, memory.entry);
    push_number(text, memory.data_size);
    text.push(b" |");
    push_words(text, memory.words.as_slice(), marks);
    push_functions(text, &image.functions.as_slice()[..known]);
    push_globals(
        text,
        start_behind(memory.words.as_slice()),
        image.globals.as_slice(),
    );
    for item in memory.items.as_slice() {
        push_item(text, item);
    }
}

/// Adds a word and names.
fn push_names(text: &mut Text, word: &[u8], names: &[&Name]) {
    text.push(word);
    for name in names {
        push_name(text, name);
    }
}

/// Adds a refusal with its names; a number in it is left out.
pub fn push_fault(text: &mut Text, fault: &LinkFault) {
    match fault {
        LinkFault::Undefined(name) => push_names(text, b"Undefined", &[name]),
        LinkFault::Duplicate(name, one, other) => {
            push_names(text, b"Duplicate", &[name, one, other])
        }
        LinkFault::Conflict(name, one, other) => push_names(text, b"Conflict", &[name, one, other]),
        LinkFault::NoMain => text.push(b"NoMain"),
        LinkFault::TextTooLarge(_) => text.push(b"TextTooLarge"),
        LinkFault::MemoryTooLarge(_) => text.push(b"MemoryTooLarge"),
        LinkFault::NoMemory => text.push(b"NoMemory"),
        LinkFault::TooMany(_, _) => text.push(b"TooMany"),
    }
}
