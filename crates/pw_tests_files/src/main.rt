//! A test of files and of what is made of them: rows in, what they hold or where they are faulty out.
//!
//! A row is a word and what it takes. Bytes stand in hexadecimal, numbers in decimal. A row that is empty or begins
//! with `#` is a heading and is printed as it is.
//!
//! - `flow`, `summary`, `database`, `payload`, `object`, `function` and BYTES: what the bytes hold, and `again` where
//!   writing that gives the same bytes; or the fault in them. A function stands behind its table of names; what is left
//!   behind it is printed. The rows below speak of these bytes.
//! - `set` and `PLACE=BYTE`s: the fault once these bytes are set, if there is one. `sealed`: the same with a digest made
//!   anew.
//! - `cut`: the fault at each length from 0 on, told where it is not that of the length before. `cut_payload`: the same
//!   of the payload, which stands in a file of its own each time.
//! - `of` and NAMES: the directives that a database has for these functions.
//! - `lawful`, with `shorter` or `twice`: whether a flow graph is lawful, without its last function or with its first
//!   declared name twice.
//! - `summed`: the summary of a flow graph, and its file. `many PLACE LENGTH COUNT`: the same where the one item of a
//!   list, whose count stands at the place, stands in it so often.
#![tactic(auto)]

mod databases;
mod edits;
mod faults;
mod flows;
mod functions;
mod globals;
mod lawful;
mod objects;
mod rows;
mod shown;
mod summaries;
mod summing;

use faults::Format;
use pw_rows::answer_rows;
use rows::Files;
use std::io;

fn main(rt: HostRuntime) -> io::Result<()> {
    let mut files = Files {
        format: Format::Flow,
        bytes: Vec::new(rt.alloc()),
    };
    answer_rows(rt.alloc(), rt.reader(), &mut rt.stdout(), &mut files)
}
