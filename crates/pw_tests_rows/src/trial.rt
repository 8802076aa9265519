//! Rows over one store, one behind another: which of them does what.

use crate::changes::change_file;
use crate::commands::{Command, Top, push_command, streams_of};
use crate::outputs::First;
use crate::stores::{put_file, put_many, remove_file, renew, words_of};
use crate::texts::push_asked;
use pw_io::MemStore;
use pw_rows::{Program, Text};
use std::alloc::{AllocError, Global};

/// A store, and what the rows so far leave for those below.
#[derive(Drop)]
struct Trial {
    store: MemStore,
    /// The text that is put together.
    source: Text,
    /// The input of commands.
    input: Vec<u8>,
    first: First,
}

/// The text that was put together; no piece of it is left.
fn taken(text: &mut Text, source: &mut Text) -> Vec<u8> {
    match source.take().into_bytes() {
        Ok(bytes) => bytes,
        Err(AllocError) => {
            text.cut();
            Vec::new(text.alloc())
        }
    }
}

/// Adds bytes in hexadecimal to a text so many times, by a row that has the count and the bytes.
fn push_spelled(source: &mut Text, row: &str) {
    let (count, digits) = row.split_once(' ').unwrap_or((row, ""));
    let bytes = source.spelled(digits);
    source.repeat(&bytes, count.parse::<usize>().unwrap_or(0));
}

impl Trial {
    /// An empty store, and nothing else.
    fn new(alloc: Global) -> Result<Box<Trial>, AllocError> {
        let store = MemStore::new(alloc, &[], &[])?;
        Ok(Box::new(
            alloc,
            Trial {
                store,
                source: Text::new(alloc),
                input: Vec::new(alloc),
                first: First::new(alloc),
            },
        )?)
    }

    /// Takes a heading, at which a table may begin.
    fn heading(&mut self, text: &mut Text, row: &str) {
        if row.starts_with("##") {
            self.input = Vec::new(text.alloc());
            self.first = First::new(text.alloc());
            renew(text, &mut self.store, "");
        }
        text.push(row.as_bytes());
        text.push(b"\n");
    }

    /// Puts the text as the file of a name, or as so many files.
    fn put_source(&mut self, text: &mut Text, word: &str, rest: &str) {
        let bytes = taken(text, &mut self.source);
        if word == "many" {
            put_many(text, &mut self.store, rest, &bytes);
        } else {
            put_file(text, &mut self.store, rest, &bytes);
        }
    }

    /// Does to the store, the input or the text what a row says.
    fn change(&mut self, text: &mut Text, row: &str) {
        let (word, rest) = row.split_once(' ').unwrap_or((row, ""));
        match word {
            "x" => push_spelled(&mut self.source, rest),
            "input" => self.input = taken(text, &mut self.source),
            "new" => renew(text, &mut self.store, rest),
            "put" | "many" => self.put_source(text, word, rest),
            "remove" => remove_file(text, &mut self.store, rest),
            _ => change_file(text, &mut self.store, word, rest),
        }
    }

    /// Adds what a question is answered.
    fn ask(&mut self, text: &mut Text, row: &str) {
        let source = taken(text, &mut self.source);
        push_asked(text, &source, row);
    }

    /// Takes a row that prints nothing.
    fn prepare(&mut self, text: &mut Text, row: &str) {
        if let Some(line) = row.strip_prefix('|') {
            self.source.push(line.as_bytes());
            self.source.push(b"\n");
        } else if let Some(part) = row.strip_prefix('+') {
            self.source.part(part);
        } else {
            self.change(text, row);
        }
    }

    /// Adds what a command tells, by its row behind the first character.
    fn obey<T: Top>(&mut self, text: &mut Text, top: &T, row: &str) {
        let (how, line) = row.split_once(' ').unwrap_or((row, ""));
        let words = words_of(text, line);
        let command = Command {
            words: &words,
            input: &self.input,
            streams: streams_of(how),
            as_it_is: how == "=",
        };
        push_command(text, top, &mut self.store, &mut self.first, &command);
    }

    /// Adds a question and what it is answered.
    fn answer_question(&mut self, text: &mut Text, row: &str) {
        text.push(row.as_bytes());
        text.push(b":");
        self.ask(text, row.strip_prefix("? ").unwrap_or(row));
        text.push(b"\n");
    }

    /// Adds what is printed for a row that is no command.
    fn answer(&mut self, text: &mut Text, row: &str) {
        if row.is_empty() || row.starts_with('#') {
            self.heading(text, row);
        } else if row.starts_with('?') {
            self.answer_question(text, row);
        } else {
            self.prepare(text, row);
        }
    }
}

/// What is printed for rows over one store, one behind another, by what obeys the commands among them.
#[derive(Drop)]
pub struct Rows<T> {
    top: T,
    trial: Box<Trial>,
}

impl<T: Copy> Rows<T> {
    /// No row so far.
    pub fn new(alloc: Global, top: T) -> Result<Rows<T>, AllocError> {
        Ok(Rows {
            top,
            trial: Trial::new(alloc)?,
        })
    }
}

impl<T: Top> Program for Rows<T> {
    fn answer(&mut self, text: &mut Text, _number: usize, row: &str) {
        match row.strip_prefix('$') {
            Some(command) => {
                text.push(row.as_bytes());
                text.push(b":");
                self.trial.obey(text, &self.top, command);
                text.push(b"\n");
            }
            None => self.trial.answer(text, row),
        }
    }
}
