//! Tables of cases, and that each case is answered as its row says.

use crate::{images, instructions, loading, programs, routines};
use pw_rows::Text;
use std::alloc::Global;
use std::fmt::Debug;
use std::process::Abort;

/// What is asked of a crate.
pub(crate) trait Case {
    /// Adds to the text what the case comes to.
    fn answer<R: Abort>(&self, rt: &R, text: &mut Text);
}

/// Adds something that was made for this alone.
pub(crate) fn push_made<D: Debug + Drop>(text: &mut Text, made: D) {
    text.debug(&made);
}

/// Whether a case is answered so.
fn is_answered<R: Abort, C: Case>(rt: &R, alloc: Global, case: &C, wanted: &str) -> bool {
    let mut text = Text::new(alloc);
    case.answer(rt, &mut text);
    match text.into_bytes() {
        Ok(found) => found.as_slice() == wanted.as_bytes(),
        Err(_) => false,
    }
}

/// Asserts that each case of a table is answered as its row says.
fn assert_answers<R: Abort, C: Case>(rt: &R, alloc: Global, rows: &[(C, &'static str)]) {
    for (case, wanted) in rows {
        assert!(rt; is_answered(rt, alloc, case, *wanted), "{wanted}");
    }
}

// A machine has 64 MiB, so that no test makes many of them.
#[test]
fn words_of_instructions(rt: HostRuntime) {
    assert_answers(&rt, rt.alloc(), &instructions::CASES);
}

#[test]
fn image_files(rt: HostRuntime) {
    assert_answers(&rt, rt.alloc(), &images::CASES);
}

#[test]
fn loaded_files(rt: HostRuntime) {
    assert_answers(&rt, rt.alloc(), &loading::CASES);
}

#[test]
fn ends_of_programs(rt: HostRuntime) {
    assert_answers(&rt, rt.alloc(), &programs::ENDS);
}

#[test]
fn accesses_of_programs(rt: HostRuntime) {
    assert_answers(&rt, rt.alloc(), &programs::ACCESSES);
}

#[test]
fn values_of_programs(rt: HostRuntime) {
    assert_answers(&rt, rt.alloc(), &programs::VALUES);
}

#[test]
fn branches_of_programs(rt: HostRuntime) {
    assert_answers(&rt, rt.alloc(), &programs::BRANCHES);
}

#[test]
fn results_of_routines(rt: HostRuntime) {
    assert_answers(&rt, rt.alloc(), &routines::CASES);
}
