//! Formats, and where bytes that should have one are faulty.

use crate::edits::{payload_of, sealed, version_of};
use crate::functions::read_named;
use crate::shown::push_value;
use pw_rows::Text;
use pw_value::FileError;
use std::alloc::Global;

/// A format of bytes: a file, the payload of a database alone, or a function of an object file behind its table of
/// names.
#[derive(Clone, Copy)]
pub enum Format {
    /// A flow file.
    Flow,
    /// A summary file.
    Summary,
    /// A database file.
    Database,
    /// The payload of a database alone.
    Payload,
    /// An object file.
    Object,
    /// A function of an object file, behind its table of names.
    Function,
}

impl Format {
    /// The kind of its files; a payload and a function have none.
    pub fn kind(self) -> u32 {
        match self {
            Format::Flow => pw_flowfile::KIND,
            Format::Summary => pw_summary::KIND,
            Format::Database => pw_db::KIND,
            Format::Object => pw_object::KIND,
            Format::Payload | Format::Function => 0,
        }
    }
}

/// The format that a row's word names, or None where it names none.
pub fn format_of(word: &str) -> Option<Format> {
    match word {
        "flow" => Some(Format::Flow),
        "summary" => Some(Format::Summary),
        "database" => Some(Format::Database),
        "payload" => Some(Format::Payload),
        "object" => Some(Format::Object),
        "function" => Some(Format::Function),
        _ => None,
    }
}

/// What is wrong with the bytes, if anything is.
fn error_in(alloc: Global, format: Format, bytes: &[u8]) -> Option<FileError> {
    match format {
        Format::Flow => pw_flowfile::read(alloc, bytes).err(),
        Format::Summary => pw_summary_file::read(alloc, bytes).err(),
        Format::Database => pw_db_file::read(alloc, bytes).err(),
        Format::Payload => pw_db_file::read_payload(alloc, bytes).err(),
        Format::Object => pw_object::read(alloc, bytes).err(),
        Format::Function => read_named(alloc, bytes).err(),
    }
}

/// The same of the file of a payload in a version.
fn error_in_payload(
    text: &mut Text,
    format: Format,
    version: u32,
    payload: &[u8],
) -> Option<FileError> {
    let file = sealed(text, format, version, payload);
    error_in(text.alloc(), format, &file)
}

/// Adds what is wrong with the bytes, if anything is.
pub fn push_fault(text: &mut Text, format: Format, bytes: &[u8]) {
    let error = error_in(text.alloc(), format, bytes);
    text.debug(&error);
}

/// Adds each length at which bytes, or the payload in them, are cut with another fault than at the length before, with
/// that fault.
pub fn push_cuts(text: &mut Text, format: Format, bytes: &[u8], is_payload: bool) {
    let whole = if is_payload { payload_of(bytes) } else { bytes };
    let mut last = None;
    for len in 0..whole.len() {
        let front = &whole[..len];
        let error = if is_payload {
            error_in_payload(text, format, version_of(bytes), front)
        } else {
            error_in(text.alloc(), format, front)
        };
        if error != last {
            push_value(text, &(len, error));
        }
        last = error;
    }
}
