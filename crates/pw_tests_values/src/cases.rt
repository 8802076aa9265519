//! Tables of cases, and that each case is answered as its row says.

use crate::{fields, trees, types, values};
use pw_rows::Text;
use std::alloc::Global;
use std::fmt::Debug;
use std::process::Abort;

/// What is asked of a crate.
pub(crate) trait Case {
    /// Adds to the text what the case comes to.
    fn answer<R: Abort>(&self, rt: &R, text: &mut Text);
}

/// Adds something that was made for this alone.
pub(crate) fn push_made<D: Debug + Drop>(text: &mut Text, made: D) {
    text.debug(&made);
}

/// Whether a case is answered so.
fn is_answered<R: Abort, C: Case>(rt: &R, alloc: Global, case: &C, wanted: &str) -> bool {
    let mut text = Text::new(alloc);
    case.answer(rt, &mut text);
    match text.into_bytes() {
        Ok(found) => found.as_slice() == wanted.as_bytes(),
        Err(_) => false,
    }
}

/// The answer that the first wrong row wants, if one is wrong.
fn first_wrong<R: Abort, C: Case>(
    rt: &R,
    alloc: Global,
    rows: &[(C, &'static str)],
) -> Option<&'static str> {
    for (case, wanted) in rows {
        if !is_answered(rt, alloc, case, *wanted) {
            return Some(*wanted);
        }
    }
    None
}

#[test]
fn cases(rt: HostRuntime) {
    let wrong = [
        first_wrong(&rt, rt.alloc(), &values::CASES),
        first_wrong(&rt, rt.alloc(), &fields::CASES),
        first_wrong(&rt, rt.alloc(), &types::CASES),
        first_wrong(&rt, rt.alloc(), &trees::CASES),
    ];
    assert!(rt; wrong == [None; 4], "{wrong:?}");
}
