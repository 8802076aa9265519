//! A test of checking and lowering: a program that answers tables of C texts. A line that is empty or begins with `#`
//! is a heading and is printed as it is; `## verdicts` and `## graphs` begin the tables. Before each answer stands the
//! number of its line in its table.
//!
//! - Verdicts: a text stands behind the first character, which says what gcc answers for it (`+` that it takes it, `-`
//!   that it refuses it). What checking answers is printed.
//! - Graphs: `+N PART` is a part of the next text, N times. Another line ends the text, and the flow graph of the
//!   module is printed.
#![tactic(auto)]

mod graphs;
mod typed;
mod verdicts;

use graphs::push_graph;
use pw_rows::{Program, Text, answer_rows};
use std::io;
use verdicts::push_verdict;

/// What is printed for the rows of a table.
#[derive(Clone, Copy)]
enum Table {
    Verdicts,
    Graphs,
}

/// A table, with the line at which it began, and a text that is on the way in it.
#[derive(Drop)]
struct Tables {
    table: Table,
    head: usize,
    source: Text,
}

/// Adds the number of a row, before its answer.
fn push_number(text: &mut Text, number: usize) {
    text.display(&number);
    text.push(b" ");
}

/// Adds the answer to a row of the table of verdicts.
fn push_row_of_verdicts(text: &mut Text, number: usize, row: &str) {
    let source = row.strip_prefix(['+', '-']).unwrap_or(row);
    push_number(text, number);
    push_verdict(text, source.as_bytes());
    text.push(b"\n");
}

impl Tables {
    /// Takes a heading, at which a table may begin.
    fn heading(&mut self, number: usize, row: &str) {
        self.table = match row {
            "## verdicts" => Table::Verdicts,
            "## graphs" => Table::Graphs,
            _ => return,
        };
        self.head = number;
    }

    /// Takes a row of the table of flow graphs.
    fn row_of_graphs(&mut self, text: &mut Text, number: usize, row: &str) {
        match row.strip_prefix('+') {
            Some(part) => self.source.part(part),
            None => {
                self.source.push(row.as_bytes());
                push_number(text, number);
                push_graph(text, self.source.take());
                text.push(b"\n");
            }
        }
    }
}

impl Program for Tables {
    fn answer(&mut self, text: &mut Text, number: usize, row: &str) {
        if row.is_empty() || row.starts_with('#') {
            self.heading(number, row);
            text.push(row.as_bytes());
            return text.push(b"\n");
        }
        let number = number.saturating_sub(self.head);
        match self.table {
            Table::Verdicts => push_row_of_verdicts(text, number, row),
            Table::Graphs => self.row_of_graphs(text, number, row),
        }
    }
}

fn main(rt: HostRuntime) -> io::Result<()> {
    let mut tables = Tables {
        table: Table::Verdicts,
        head: 0,
        source: Text::new(rt.alloc()),
    };
    answer_rows(rt.alloc(), rt.reader(), &mut rt.stdout(), &mut tables)
}
