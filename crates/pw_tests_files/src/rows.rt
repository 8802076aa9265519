//! Rows: which of them does what.

use crate::databases::{push_chosen, push_database, push_payload};
use crate::edits::{edited, repeated, sealed_anew};
use crate::faults::{Format, format_of, push_cuts, push_fault};
use crate::flows::push_flow;
use crate::functions::push_function_file;
use crate::lawful::push_lawful;
use crate::objects::push_object;
use crate::summaries::push_summary_file;
use crate::summing::push_summed;
use pw_rows::{Program, Text};

/// The bytes that the rows speak of, and the format that they should have.
#[derive(Drop)]
pub struct Files {
    pub format: Format,
    pub bytes: Vec<u8>,
}

/// Adds what the bytes hold, or the offset of their fault.
fn push_file(text: &mut Text, format: Format, bytes: &[u8]) {
    match format {
        Format::Flow => push_flow(text, bytes),
        Format::Summary => push_summary_file(text, bytes),
        Format::Database => push_database(text, bytes),
        Format::Payload => push_payload(text, bytes),
        Format::Object => push_object(text, bytes),
        Format::Function => push_function_file(text, bytes),
    }
}

/// Adds the fault of bytes once some are set.
fn push_edited(text: &mut Text, files: &Files, edits: &str, is_sealed: bool) {
    let mut bytes = edited(text, &files.bytes, edits);
    if is_sealed {
        bytes = sealed_anew(text, files.format, &bytes);
    }
    push_fault(text, files.format, &bytes);
}

/// Adds the summary of a flow graph in which an item stands so often.
fn push_many(text: &mut Text, file: &[u8], list: &str) {
    let (place, rest) = list.split_once(' ').unwrap_or((list, ""));
    let (len, count) = rest.split_once(' ').unwrap_or((rest, ""));
    let place = place.parse::<usize>().unwrap_or(0);
    let len = len.parse::<usize>().unwrap_or(0);
    let many = repeated(text, file, place, len, count.parse::<u32>().unwrap_or(0));
    push_summed(text, &many);
}

/// Adds what a row on the kept bytes asks for.
fn push_row(text: &mut Text, files: &Files, word: &str, rest: &str) {
    match word {
        "set" => push_edited(text, files, rest, false),
        "sealed" => push_edited(text, files, rest, true),
        "cut" => push_cuts(text, files.format, &files.bytes, false),
        "cut_payload" => push_cuts(text, files.format, &files.bytes, true),
        "of" => push_chosen(text, &files.bytes, rest),
        "lawful" => push_lawful(text, &files.bytes, rest),
        "summed" => push_summed(text, &files.bytes),
        "many" => push_many(text, &files.bytes, rest),
        _ => text.push(b"no row"),
    }
}

impl Files {
    /// Adds what a row asks for that is no heading.
    fn push(&mut self, text: &mut Text, row: &str) {
        let (word, rest) = row.split_once(' ').unwrap_or((row, ""));
        match format_of(word) {
            Some(format) => {
                self.format = format;
                self.bytes = text.spelled(rest);
                push_file(text, format, &self.bytes);
            }
            None => push_row(text, self, word, rest),
        }
    }
}

impl Program for Files {
    fn answer(&mut self, text: &mut Text, _number: usize, row: &str) {
        if row.is_empty() || row.starts_with('#') {
            text.push(row.as_bytes());
        } else {
            self.push(text, row);
        }
        text.push(b"\n");
    }
}
