//! Tables of cases, and that each case is answered as its row says.

use crate::{outside, solver};
use pw_rows::Text;
use std::alloc::Global;
use std::process::Abort;

/// What is asked of a crate.
pub(crate) trait Case {
    /// Adds to the text what the case comes to.
    fn answer<R: Abort>(&self, rt: &R, text: &mut Text);
}

/// Whether a case is answered so.
fn is_answered<R: Abort, C: Case>(rt: &R, alloc: Global, case: &C, wanted: &str) -> bool {
    let mut text = Text::new(alloc);
    case.answer(rt, &mut text);
    match text.into_bytes() {
        Ok(found) => found.as_slice() == wanted.as_bytes(),
        Err(_) => false,
    }
}

/// Asserts that each case of a table is answered as its row says.
fn assert_answers<R: Abort, C: Case>(rt: &R, alloc: Global, rows: &[(C, &'static str)]) {
    for (case, wanted) in rows {
        assert!(rt; is_answered(rt, alloc, case, *wanted), "{wanted}");
    }
}

#[test]
fn outside_in_memory(rt: HostRuntime) {
    assert_answers(&rt, rt.alloc(), &outside::CASES);
}

#[test]
fn data_flow(rt: HostRuntime) {
    assert_answers(&rt, rt.alloc(), &solver::CASES);
}
