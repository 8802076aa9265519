//! Typed trees of texts. Their memory goes back with the program's, as that of the syntax trees that they are made of.

use pw_check::{CheckFault, CheckKind, check};
use pw_front_end::{FrontEndFault, Refusal, front};
use pw_tree::Module;
use pw_typed::TModule;
use std::alloc::Global;
use std::mem::ManuallyDrop;

/// A typed tree that stays to the end of the program.
pub type Kept = ManuallyDrop<TModule>;

/// How a fault of checking is told.
fn error_of(fault: CheckFault) -> FrontEndFault {
    match fault.kind {
        CheckKind::NoMemory => FrontEndFault::NoMemory,
        _ => FrontEndFault::Refused(Refusal::Check(fault)),
    }
}

/// The typed tree of a tree, or the fault that checking finds.
fn checked(alloc: Global, tree: &Module) -> Result<Kept, FrontEndFault> {
    match check(alloc, tree) {
        Ok(typed) => Ok(ManuallyDrop::new(typed)),
        Err(fault) => Err(error_of(fault)),
    }
}

/// The typed tree of a text, or why the front end or checking refuses it.
pub fn typed(alloc: Global, source: &[u8]) -> Result<Kept, FrontEndFault> {
    match front(alloc, source) {
        Ok(tree) => checked(alloc, &ManuallyDrop::new(tree)),
        Err(error) => Err(error),
    }
}
