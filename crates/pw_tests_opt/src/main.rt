//! A test of the optimiser: a program that answers a table of flow files. A line that is empty or begins with `#` is a heading
//! and is printed as it is; any other has a flow file in hexadecimal, and the file of its optimised module is printed.
#![tactic(auto)]

mod optimising;

use optimising::push_optimised;
use pw_rows::{Program, Text, answer_rows};
use std::io;

/// Flow files, one a line.
#[derive(Drop)]
struct Files {}

impl Program for Files {
    fn answer(&mut self, text: &mut Text, _number: usize, row: &str) {
        if row.is_empty() || row.starts_with('#') {
            text.push(row.as_bytes());
        } else {
            push_optimised(text, row);
        }
        text.push(b"\n");
    }
}

fn main(rt: HostRuntime) -> io::Result<()> {
    let mut files = Files {};
    answer_rows(rt.alloc(), rt.reader(), &mut rt.stdout(), &mut files)
}
