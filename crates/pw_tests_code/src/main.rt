//! A test of the second phase and the linker: a program that answers tables of files. A line that is empty or begins
//! with `#` is a heading and is printed as it is; `## codes` and `## images` begin the tables.
//!
//! - Codes: a line has a flow file and the payload of directives in hexadecimal. For each function its name, its frame,
//!   how many words it has, the words, and the relocations are printed.
//! - Images: a line has the bytes of the stack, a mark for each word of the modules, and object files in hexadecimal,
//!   which are linked. The image is printed, or why there is none. A word whose mark is `-` is left out, as are the words
//!   behind the modules', and objects are told by their offsets from the start of the data: so what is printed rests on
//!   no word of a routine.
#![tactic(auto)]

mod codes;
mod images;
mod linking;
mod phase;

use linking::push_linked;
use phase::push_compiled;
use pw_rows::{Program, Text, answer_rows};
use std::io;

/// What is printed for the rows of a table.
#[derive(Clone, Copy)]
enum Table {
    Codes,
    Images,
}

/// The table that began last.
#[derive(Drop)]
struct Tables {
    table: Table,
}

impl Tables {
    /// Takes a heading, at which a table may begin.
    fn heading(&mut self, row: &str) {
        match row {
            "## codes" => self.table = Table::Codes,
            "## images" => self.table = Table::Images,
            _ => {}
        }
    }
}

impl Program for Tables {
    fn answer(&mut self, text: &mut Text, _number: usize, row: &str) {
        if row.is_empty() || row.starts_with('#') {
            self.heading(row);
            text.push(row.as_bytes());
        } else {
            match self.table {
                Table::Codes => push_compiled(text, row),
                Table::Images => push_linked(text, row),
            }
        }
        text.push(b"\n");
    }
}

fn main(rt: HostRuntime) -> io::Result<()> {
    let mut tables = Tables {
        table: Table::Codes,
    };
    answer_rows(rt.alloc(), rt.reader(), &mut rt.stdout(), &mut tables)
}
