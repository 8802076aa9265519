//! What checking answers for a text, in words.

use crate::typed::typed;
use pw_check::CheckFault;
use pw_front_end::{FrontEndFault, Refusal};
use pw_rows::Text;
use std::alloc::Global;

/// Why a text is refused, where it is.
fn error_of(alloc: Global, source: &[u8]) -> Option<FrontEndFault> {
    typed(alloc, source).err()
}

/// Adds the kind of a fault, with its feature or its limit and the counted number, and its token.
fn push_fault(text: &mut Text, fault: &CheckFault) {
    text.debug(&fault.kind);
    text.push(b" at token ");
    text.display(&fault.token);
}

/// Adds `accepted`, or the fault; of a text that has no tree the refusal.
pub fn push_verdict(text: &mut Text, source: &[u8]) {
    match error_of(text.alloc(), source) {
        None => text.push(b"accepted"),
        Some(FrontEndFault::NoMemory) => text.cut(),
        Some(FrontEndFault::Refused(Refusal::Check(fault))) => push_fault(text, &fault),
        Some(FrontEndFault::Refused(refusal)) => text.debug(&refusal),
    }
}
