//! Summaries as text.

use crate::shown::{push_again, push_names, push_row, push_shaped, push_value, push_word};
use pw_rows::Text;
use pw_summary::{Summary, Uses};
use pw_summary_file::{read, write};
use pw_value::{Kind, Name, Shape};

/// Adds objects, each with its name, its shape, its kind and whether it is volatile.
fn push_globals(text: &mut Text, globals: &[(Name, Shape, Option<Kind>, bool)]) {
    text.push(b" |");
    for global in globals {
        push_row(
            text,
            global.0.as_bytes(),
            global.1.as_bytes(),
            &(global.2, global.3),
        );
    }
}

/// Adds shapes, each behind a colon.
fn push_shapes(text: &mut Text, shapes: &[Shape]) {
    for shape in shapes {
        text.push(b" :");
        text.push(shape.as_bytes());
    }
}

/// Adds objects with their weights, of reads and of writes.
fn push_refs(text: &mut Text, refs: &[(Name, u64, u64)]) {
    for global in refs {
        push_word(text, global.0.as_bytes());
        push_value(text, &(global.1, global.2));
    }
}

/// Adds what functions use: what they call, by name and through shapes, their objects, and how many registers they need.
fn push_uses(text: &mut Text, uses: &[Uses]) {
    for of_one in uses {
        push_names(text, of_one.calls.as_slice());
        push_shapes(text, of_one.shapes.as_slice());
        push_refs(text, of_one.refs.as_slice());
        push_value(text, &of_one.need);
    }
}

/// Adds the parts of a summary in their order.
pub fn push_summary(text: &mut Text, summary: &Summary) {
    push_value(text, &summary.version);
    push_word(text, summary.module.as_bytes());
    push_globals(text, summary.globals.as_slice());
    push_shaped(text, summary.functions.as_slice());
    push_shaped(text, summary.declared.as_slice());
    push_names(text, summary.used.as_slice());
    push_shaped(text, summary.taken.as_slice());
    push_names(text, summary.escaped.as_slice());
    push_uses(text, summary.uses.as_slice());
}

/// Adds what a summary file holds, or its fault.
pub fn push_summary_file(text: &mut Text, bytes: &[u8]) {
    match read(text.alloc(), bytes) {
        Ok(summary) => {
            push_summary(text, &summary);
            let written = write(text.alloc(), &summary);
            push_again(text, written, bytes);
        }
        Err(error) => text.debug(&error),
    }
}
