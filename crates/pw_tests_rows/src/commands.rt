//! Commands over a store in memory, and what they tell.

use crate::outputs::{First, Told, push_told};
use pw_io::{MemSink, MemSource, MemStore};
use pw_rows::Text;
use std::alloc::{AllocError, Global};

/// What obeys commands.
pub trait Top {
    /// The status of words over a store, an input, an output and `err`.
    fn status_of(
        &self,
        alloc: Global,
        words: &[String],
        store: &mut MemStore,
        input: &mut MemSource,
        out: &mut MemSink,
        err: &mut MemSink,
    ) -> u8;
}

/// More bytes than a command puts out.
const ROOM: usize = 100_000;

/// The call of the input that fails and the call of the output, or 0, and how many bytes `err` takes.
#[derive(Clone, Copy)]
pub struct Streams {
    read: u64,
    put: u64,
    room: usize,
}

/// Nothing fails.
const SURE: Streams = Streams {
    read: 0,
    put: 0,
    room: 1000,
};

/// A command's words, its input, and what fails of its streams.
#[derive(Clone, Copy)]
pub struct Command<'a> {
    pub words: &'a [String],
    pub input: &'a [u8],
    pub streams: Streams,
    /// What it puts out is told as it is.
    pub as_it_is: bool,
}

/// The number of a call.
fn call_of(digits: &str) -> u64 {
    digits.parse::<u64>().unwrap_or(0)
}

/// What fails of the streams of a row.
pub fn streams_of(how: &str) -> Streams {
    if let Some(call) = how.strip_prefix('<') {
        return Streams {
            read: call_of(call),
            ..SURE
        };
    }
    if let Some(call) = how.strip_prefix('>') {
        return Streams {
            put: call_of(call),
            ..SURE
        };
    }
    let room = if how == "!" { 0 } else { SURE.room };
    Streams { room, ..SURE }
}

/// The bytes of a store's image, or none.
fn image_of(store: &MemStore) -> &[u8] {
    store.bytes_of("prog.img").unwrap_or(&[])
}

/// Adds what a command with this input, output and `err` tells.
fn push_all<T: Top>(
    text: &mut Text,
    top: &T,
    store: &mut MemStore,
    first: &mut First,
    command: &Command<'_>,
    input: &mut MemSource,
    out: &mut MemSink,
    err: &mut MemSink,
) {
    let before = store.puts().len();
    let status = top.status_of(text.alloc(), command.words, store, input, out, err);
    let told = Told {
        status,
        out: out.bytes(),
        as_it_is: command.as_it_is,
        err: err.bytes(),
        puts: store.puts().get(before..).unwrap_or(&[]),
        image: image_of(store),
    };
    push_told(text, first, &told);
}

/// Adds what a command with this input and output tells.
fn push_with_output<T: Top>(
    text: &mut Text,
    top: &T,
    store: &mut MemStore,
    first: &mut First,
    command: &Command<'_>,
    input: &mut MemSource,
    out: &mut MemSink,
) {
    match MemSink::new(text.alloc(), command.streams.room, &[]) {
        Ok(mut err) => push_all(text, top, store, first, command, input, out, &mut err),
        Err(AllocError) => text.cut(),
    }
}

/// Adds what a command with this input tells.
fn push_with_input<T: Top>(
    text: &mut Text,
    top: &T,
    store: &mut MemStore,
    first: &mut First,
    command: &Command<'_>,
    input: &mut MemSource,
) {
    match MemSink::new(text.alloc(), ROOM, &[command.streams.put]) {
        Ok(mut out) => push_with_output(text, top, store, first, command, input, &mut out),
        Err(AllocError) => text.cut(),
    }
}

/// Adds what a command tells.
pub fn push_command<T: Top>(
    text: &mut Text,
    top: &T,
    store: &mut MemStore,
    first: &mut First,
    command: &Command<'_>,
) {
    match MemSource::new(text.alloc(), command.input, &[command.streams.read]) {
        Ok(mut input) => push_with_input(text, top, store, first, command, &mut input),
        Err(AllocError) => text.cut(),
    }
}
