//! Databases and their payloads as text.

use crate::shown::{push_again, push_value, push_word};
use pw_db::{Directives, Role, Web, of_module};
use pw_db_file::{payload, read, read_payload, write};
use pw_rows::Text;
use pw_value::Name;

/// Adds a web: its object, its number, its kind, its register, whether it writes, and whether the function enters it.
fn push_web(text: &mut Text, web: &(Web, Role)) {
    let enters = web.1 == Role::Entry;
    let web = &web.0;
    push_word(text, web.global.as_bytes());
    push_value(text, &(web.id, web.kind, web.reg, web.writes, enters));
}

/// Adds registers behind what they are, where there are some.
fn push_registers(text: &mut Text, what: &[u8], registers: &[u8]) {
    if registers.is_empty() {
        return;
    }
    push_word(text, what);
    push_value(text, &registers);
}

/// Adds functions with their webs, and the registers that each shares with others.
fn push_functions(text: &mut Text, functions: &[(Name, Directives)]) {
    for function in functions {
        text.push(b" |");
        push_word(text, function.0.as_bytes());
        for web in function.1.webs.as_slice() {
            push_web(text, web);
        }
        push_registers(text, b"free", function.1.free.as_slice());
        push_registers(text, b"saves", function.1.saves.as_slice());
    }
}

/// Adds what a database file holds, or its fault.
pub fn push_database(text: &mut Text, bytes: &[u8]) {
    match read(text.alloc(), bytes) {
        Ok(db) => {
            push_value(text, &db.version);
            push_functions(text, db.functions.as_slice());
            let written = write(text.alloc(), &db);
            push_again(text, written, bytes);
        }
        Err(error) => text.debug(&error),
    }
}

/// Adds what a payload holds, or its fault.
pub fn push_payload(text: &mut Text, bytes: &[u8]) {
    match read_payload(text.alloc(), bytes) {
        Ok(list) => {
            let functions = list.as_slice();
            push_functions(text, functions);
            let written = payload(text.alloc(), functions);
            push_again(text, written, bytes);
        }
        Err(error) => text.debug(&error),
    }
}

/// Adds a name to others.
fn push_name(text: &mut Text, names: &mut Vec<Name>, word: &str) {
    match Name::new(text.alloc(), word.as_bytes()) {
        Ok(name) => {
            if names.push(name).is_err() {
                text.cut();
            }
        }
        Err(_) => text.cut(),
    }
}

/// The names that a text has.
fn names_of(text: &mut Text, words: &str) -> Vec<Name> {
    let mut names = Vec::new(text.alloc());
    for word in words.split(' ') {
        push_name(text, &mut names, word);
    }
    names
}

/// Adds the directives that a database file has for functions.
pub fn push_chosen(text: &mut Text, bytes: &[u8], words: &str) {
    let names = names_of(text, words);
    if let Ok(db) = read(text.alloc(), bytes) {
        match of_module(text.alloc(), &db, &names) {
            Ok(list) => push_functions(text, &list),
            Err(_) => text.cut(),
        }
    }
}
