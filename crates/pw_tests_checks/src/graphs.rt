//! Flow graphs of modules, in words: of each object that has items its name and its items, each with its offset; of each
//! function its name, how many temporaries it has, and its blocks, of each the depth of the loops around it, its first
//! operations and its end.

use crate::typed::typed;
use pw_flow::{Block, End, FlowFn, FlowGlobal, FlowModule, Item, Op};
use pw_front_end::FrontEndFault;
use pw_lstmt::lower_module;
use pw_rows::Text;
use pw_typed::TModule;
use pw_value::{Name, NameError};
use std::alloc::{AllocError, Global};
use std::mem::ManuallyDrop;

/// How many operations of a block are printed at most.
const FIRST: usize = 7;

/// Adds a word and numbers.
fn push_numbers(text: &mut Text, word: &[u8], numbers: &[u32]) {
    text.push(word);
    for number in numbers {
        text.push(b" ");
        text.display(number);
    }
}

/// Adds an operation with its temporaries, or that it is another one.
fn push_op(text: &mut Text, op: &Op) {
    match op {
        Op::Const(to, number) => push_numbers(text, b" const", &[*to, *number]),
        Op::Bin(_, to, left, right) => push_numbers(text, b" bin", &[*to, *left, *right]),
        Op::LoadG(to, _, _) => push_numbers(text, b" load", &[*to]),
        Op::StoreG(_, from, _) => push_numbers(text, b" store", &[*from]),
        _ => text.push(b" other"),
    }
}

/// Adds how a block ends.
fn push_end(text: &mut Text, end: End) {
    match end {
        End::Return(None) => text.push(b" return"),
        End::Return(Some(value)) => push_numbers(text, b" return", &[value]),
        End::Jump(_) | End::Branch(_, _, _) => text.push(b" on"),
    }
}

/// Adds a block.
fn push_block(text: &mut Text, block: &Block) {
    push_numbers(text, b" [depth", &[block.depth]);
    for op in block.ops.as_slice().iter().take(FIRST) {
        push_op(text, op);
    }
    push_end(text, block.end);
    text.push(b"]");
}

/// Adds a function.
fn push_function(text: &mut Text, f: &FlowFn) {
    text.push(f.name.as_bytes());
    push_numbers(text, b" temps", &[f.temps]);
    for block in f.blocks.as_slice() {
        push_block(text, block);
    }
}

/// Adds bytes in hexadecimal.
fn push_bytes(text: &mut Text, bytes: &[u8]) {
    for byte in bytes {
        text.byte(*byte);
    }
}

/// Adds an item: its offset, and its bytes or the name whose address it is, with the number that is added.
fn push_item(text: &mut Text, offset: u32, item: &Item) {
    push_numbers(text, b" at", &[offset]);
    text.push(b" ");
    match item {
        Item::Bytes(bytes) => push_bytes(text, bytes.as_slice()),
        Item::Address(name, further) => {
            text.push(name.as_bytes());
            push_numbers(text, b" plus", &[*further]);
        }
    }
}

/// Adds an object that has items; of another one nothing.
fn push_global(text: &mut Text, global: &FlowGlobal) {
    let items = global.items.as_slice();
    if !items.is_empty() {
        text.push(global.name.as_bytes());
    }
    for (offset, item) in items {
        push_item(text, *offset, item);
    }
}

/// Adds the objects of a flow graph.
fn push_globals(text: &mut Text, flow: &FlowModule) {
    for global in flow.globals.as_slice() {
        push_global(text, global);
    }
}

/// Adds the functions of a flow graph.
fn push_functions(text: &mut Text, flow: &FlowModule) {
    for f in flow.functions.as_slice() {
        push_function(text, f);
    }
}

/// The flow graph of a typed tree.
fn graph_of(alloc: Global, tree: &TModule) -> Result<FlowModule, NameError> {
    let name = Name::new(alloc, b"m")?;
    Ok(lower_module(alloc, &name, tree)?)
}

/// Adds the objects and the functions of a flow graph.
fn push_parts(text: &mut Text, flow: &FlowModule) {
    push_globals(text, flow);
    push_functions(text, flow);
}

/// Adds the flow graph of a typed tree.
fn push_lowered(text: &mut Text, tree: &TModule) {
    match graph_of(text.alloc(), tree) {
        Ok(flow) => push_parts(text, &ManuallyDrop::new(flow)),
        Err(_) => text.cut(),
    }
}

/// Adds the flow graph of a text, or that it is refused.
fn push_of(text: &mut Text, source: &[u8]) {
    match typed(text.alloc(), source) {
        Ok(tree) => push_lowered(text, &tree),
        Err(FrontEndFault::NoMemory) => text.cut(),
        Err(FrontEndFault::Refused(_)) => text.push(b"refused"),
    }
}

/// Adds the flow graph of a text.
pub fn push_graph(text: &mut Text, source: Text) {
    match source.into_bytes() {
        Ok(source) => push_of(text, &source),
        Err(AllocError) => text.cut(),
    }
}
