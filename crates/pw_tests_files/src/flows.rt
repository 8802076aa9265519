//! Flow files as text.

use crate::globals::push_globals;
use crate::shown::{push_again, push_row, push_shaped, push_value, push_word};
use pw_flow::{Block, End, FlowFn, FlowModule, Op};
use pw_flowfile::{read, write};
use pw_rows::Text;
use std::fmt::Debug;

/// Adds the name of an operation or an end, and its fields.
fn push_fields<D: Debug>(text: &mut Text, name: &[u8], fields: &D) {
    push_word(text, name);
    push_value(text, fields);
}

/// Adds an operation on memory or a call; another adds nothing.
fn push_access(text: &mut Text, op: &Op) {
    match op {
        Op::Load(kind, t, a) => push_fields(text, b"Load", &(*kind, *t, *a)),
        Op::Store(kind, a, b) => push_fields(text, b"Store", &(*kind, *a, *b)),
        Op::Call(t, function, arguments) => {
            push_row(
                text,
                b"Call",
                function.as_bytes(),
                &(*t, arguments.as_slice()),
            );
        }
        Op::CallInd(t, a, shape, arguments) => {
            push_row(
                text,
                b"CallInd",
                shape.as_bytes(),
                &(*t, *a, arguments.as_slice()),
            );
        }
        _ => {}
    }
}

/// Adds an operation that names an object or a function, an access or a call; another adds nothing.
fn push_named(text: &mut Text, op: &Op) {
    match op {
        Op::AddrGlobal(t, global, n) => {
            push_row(text, b"AddrGlobal", global.as_bytes(), &(*t, *n));
        }
        Op::AddrFn(t, function) => push_row(text, b"AddrFn", function.as_bytes(), t),
        Op::LoadG(t, global, kind) => push_row(text, b"LoadG", global.as_bytes(), &(*t, *kind)),
        Op::StoreG(global, a, kind) => push_row(text, b"StoreG", global.as_bytes(), &(*a, *kind)),
        _ => push_access(text, op),
    }
}

/// Adds an operation: its name, the name or the shape in it, and its other fields, the kind of an operation on numbers
/// by its byte in a file.
fn push_op(text: &mut Text, op: &Op) {
    match op {
        Op::Const(t, n) => push_fields(text, b"Const", &(*t, *n)),
        Op::Copy(t, a) => push_fields(text, b"Copy", &(*t, *a)),
        Op::Un(kind, t, a) => push_fields(text, b"Un", &(*kind as u8, *t, *a)),
        Op::Bin(kind, t, a, b) => push_fields(text, b"Bin", &(*kind as u8, *t, *a, *b)),
        Op::Ext(kind, t, a) => push_fields(text, b"Ext", &(*kind as u8, *t, *a)),
        Op::AddrSlot(t, s) => push_fields(text, b"AddrSlot", &(*t, *s)),
        Op::Move(a, b, size, unit) => push_fields(text, b"Move", &(*a, *b, *size, *unit)),
        _ => push_named(text, op),
    }
}

/// Adds where a block goes on.
fn push_end(text: &mut Text, end: End) {
    match end {
        End::Jump(to) => push_fields(text, b"Jump", &to),
        End::Branch(on, to, other) => push_fields(text, b"Branch", &(on, to, other)),
        End::Return(value) => push_fields(text, b"Return", &value),
    }
}

/// Adds a block: its depth, its operations and its end.
fn push_block(text: &mut Text, block: &Block) {
    push_value(text, &block.depth);
    text.push(b":");
    for op in block.ops.as_slice() {
        push_op(text, op);
        text.push(b",");
    }
    push_end(text, block.end);
    text.push(b";");
}

/// Adds a function: its name, its shape, how many parameters and temporaries it has, its slots, and its blocks.
fn push_function(text: &mut Text, function: &FlowFn) {
    let counts = (function.params, function.temps, function.slots.as_slice());
    text.push(b" |");
    push_row(
        text,
        function.name.as_bytes(),
        function.shape.as_bytes(),
        &counts,
    );
    for block in function.blocks.as_slice() {
        push_block(text, block);
    }
}

/// Adds the parts of a module in their order.
fn push_module(text: &mut Text, flow: &FlowModule) {
    text.push(flow.name.as_bytes());
    push_globals(text, flow.globals.as_slice());
    push_shaped(text, flow.declared.as_slice());
    for function in flow.functions.as_slice() {
        push_function(text, function);
    }
}

/// Adds what a flow file holds, or its fault.
pub fn push_flow(text: &mut Text, bytes: &[u8]) {
    match read(text.alloc(), bytes) {
        Ok(flow) => {
            push_module(text, &flow);
            let written = write(text.alloc(), &flow);
            push_again(text, written, bytes);
        }
        Err(error) => text.debug(&error),
    }
}
