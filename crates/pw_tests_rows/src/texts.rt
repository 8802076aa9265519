//! Questions about texts: command lines, scripts, databases, images and made programs.

use crate::command_lines::push_command_line;
use crate::made_programs::push_program;
use crate::scripts::push_script;
use pw_db::Database;
use pw_db_file::read;
use pw_fields::frame::seal;
use pw_image::LoadError;
use pw_list::{db_text, listing};
use pw_rows::Text;
use std::alloc::AllocError;
use std::mem::ManuallyDrop;

/// The most bytes of a payload.
const MOST: usize = 1000;

/// Adds a text as it is written between quotation marks.
pub fn push_text(text: &mut Text, bytes: &[u8]) {
    text.push(b" ");
    match str::from_utf8(bytes) {
        Ok(shown) => text.debug(&shown),
        Err(_) => text.push(b"no text"),
    }
}

/// The file of a kind, in a version, with a payload of few bytes.
fn sealed(text: &mut Text, kind: u32, version: u32, payload: &[u8]) -> Vec<u8> {
    if payload.len() <= MOST {
        if let Ok(file) = seal(text.alloc(), kind, version, payload) {
            return file;
        }
    }
    text.cut();
    Vec::new(text.alloc())
}

/// Adds the text of a database.
fn push_database(text: &mut Text, database: &Database) {
    match db_text(text.alloc(), database) {
        Ok(shown) => push_text(text, &shown),
        Err(AllocError) => text.cut(),
    }
}

/// Adds the text of the database in a file. The database's memory goes back with the program's.
fn push_database_file(text: &mut Text, file: &[u8]) {
    match read(text.alloc(), file) {
        Ok(database) => push_database(text, &ManuallyDrop::new(database)),
        Err(_) => text.push(b" no database"),
    }
}

/// Adds the listing of the image in a file, or the offset of the file's fault.
fn push_listing(text: &mut Text, file: &[u8]) {
    match listing(text.alloc(), file) {
        Ok(shown) => push_text(text, &shown),
        Err(LoadError::LoadFault { at }) => {
            text.push(b" fault at ");
            text.display(&at);
        }
        Err(LoadError::NoMemory) => text.cut(),
    }
}

/// Adds the text of a database by its payload.
fn push_sealed_database(text: &mut Text, payload: &[u8]) {
    let file = sealed(text, pw_db::KIND, pw_db::VERSION, payload);
    push_database_file(text, &file);
}

/// Adds the listing of an image by its payload.
fn push_sealed_image(text: &mut Text, payload: &[u8]) {
    let file = sealed(text, pw_image::KIND, pw_image::VERSION, payload);
    push_listing(text, &file);
}

/// Adds what a question is answered, some about a text.
pub fn push_asked(text: &mut Text, source: &[u8], asked: &str) {
    let (word, rest) = asked.split_once(' ').unwrap_or((asked, ""));
    match word {
        "words" => push_command_line(text, rest),
        "script" => push_script(text, source),
        "database" => push_sealed_database(text, source),
        "image" => push_sealed_image(text, source),
        "file" => push_listing(text, source),
        "program" => push_program(text, rest),
        _ => text.push(b" no question"),
    }
}
