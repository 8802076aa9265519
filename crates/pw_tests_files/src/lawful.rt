//! Whether flow graphs are lawful.

use pw_flow::{FlowFn, FlowModule};
use pw_flow_valid::is_valid;
use pw_flowfile::read;
use pw_items::Items;
use pw_rows::Text;
use pw_value::{Name, Shape};
use std::alloc::{AllocError, Global};

/// The functions without the last one.
fn shorter(functions: Items<FlowFn>) -> Items<FlowFn> {
    let mut all = functions.into_vec();
    drop(all.pop());
    Items::from_vec(all)
}

/// Another name with its shape of the same.
fn copy(alloc: Global, entry: &(Name, Shape)) -> Result<(Name, Shape), AllocError> {
    let name = entry.0.copy(alloc)?;
    Ok((name, entry.1.copy(alloc)?))
}

/// The declared names, the first of them once more behind the others.
fn longer(
    alloc: Global,
    declared: Items<(Name, Shape)>,
) -> Result<Items<(Name, Shape)>, AllocError> {
    let mut all = declared;
    if let [first, ..] = all.as_slice() {
        let again = copy(alloc, first)?;
        all.push(again)?;
    }
    Ok(all)
}

/// The module without its last function.
fn without_last(flow: FlowModule) -> FlowModule {
    let FlowModule {
        name,
        globals,
        functions,
        declared,
    } = flow;
    FlowModule {
        name,
        globals,
        functions: shorter(functions),
        declared,
    }
}

/// The module with its first declared name twice.
fn with_twice(alloc: Global, flow: FlowModule) -> Result<FlowModule, AllocError> {
    let FlowModule {
        name,
        globals,
        functions,
        declared,
    } = flow;
    Ok(FlowModule {
        name,
        globals,
        functions,
        declared: longer(alloc, declared)?,
    })
}

/// The module as it is, without its last function, or with its first declared name twice.
fn changed(alloc: Global, flow: FlowModule, change: &str) -> Result<FlowModule, AllocError> {
    match change {
        "shorter" => Ok(without_last(flow)),
        "twice" => with_twice(alloc, flow),
        _ => Ok(flow),
    }
}

/// Whether a changed module is lawful.
fn is_lawful(alloc: Global, flow: FlowModule, change: &str) -> Result<bool, AllocError> {
    let flow = changed(alloc, flow, change)?;
    is_valid(alloc, &flow)
}

/// Adds whether the module of a file is lawful once it is changed.
pub fn push_lawful(text: &mut Text, bytes: &[u8], change: &str) {
    let alloc = text.alloc();
    match read(alloc, bytes) {
        Ok(flow) => match is_lawful(alloc, flow, change) {
            Ok(lawful) => text.debug(&lawful),
            Err(_) => text.cut(),
        },
        Err(error) => text.debug(&error),
    }
}
