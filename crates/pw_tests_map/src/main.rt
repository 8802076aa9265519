//! A test of the map of the crates: a program that makes the tables of docs/ARCHITECTURE.md from the crates' sentences.
//!
//! A row that begins with `# ` is a part's heading, and one with `: ` a crate and the first sentence of its root file.
#![tactic(auto)]

use pw_rows::{Program, Text, answer_rows};
use std::io;

/// The map of the crates.
#[derive(Drop)]
struct Map;

/// Adds the heading of a part and those of its table.
fn push_part(text: &mut Text, heading: &str) {
    text.push(b"### ");
    text.push(heading.as_bytes());
    text.push(b"\n\n| crate | what it is |\n|---|---|");
}

/// Adds a crate's row of the table.
fn push_crate(text: &mut Text, name: &str, sentence: &str) {
    text.push(b"| ");
    text.push(name.as_bytes());
    text.push(b" | ");
    text.push(sentence.as_bytes());
    text.push(b" |");
}

/// Adds what a row comes to; nothing where it is neither a heading nor a crate's.
fn push_row(text: &mut Text, row: &str) {
    if let Some(heading) = row.strip_prefix("# ") {
        push_part(text, heading);
    } else if let Some((name, sentence)) = row.split_once(": ") {
        push_crate(text, name, sentence);
    }
}

impl Program for Map {
    fn answer(&mut self, text: &mut Text, _number: usize, row: &str) {
        push_row(text, row);
        text.push(b"\n");
    }
}

fn main(rt: HostRuntime) -> io::Result<()> {
    answer_rows(rt.alloc(), rt.reader(), &mut rt.stdout(), &mut Map)
}
