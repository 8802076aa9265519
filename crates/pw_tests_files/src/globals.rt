//! The objects of modules as text.

use crate::shown::{push_row, push_value, push_word};
use pw_flow::{FlowGlobal, Item};
use pw_rows::Text;

/// Adds an item: its offset with its bytes, or with what is added to the address of a name.
fn push_item(text: &mut Text, placed: &(u32, Item)) {
    match &placed.1 {
        Item::Bytes(bytes) => push_value(text, &(placed.0, bytes.as_slice())),
        Item::Address(name, plus) => {
            push_value(text, &(placed.0, *plus));
            push_word(text, name.as_bytes());
        }
    }
}

/// Adds an object: its name, its shape, its size, its kind and whether it is volatile, and its items.
fn push_global(text: &mut Text, global: &FlowGlobal) {
    let value = (global.size, global.kind, global.volatile);
    push_row(
        text,
        global.name.as_bytes(),
        global.shape.as_bytes(),
        &value,
    );
    for item in global.items.as_slice() {
        push_item(text, item);
    }
    text.push(b";");
}

/// Adds objects.
pub fn push_globals(text: &mut Text, globals: &[FlowGlobal]) {
    text.push(b" |");
    for global in globals {
        push_global(text, global);
    }
}
