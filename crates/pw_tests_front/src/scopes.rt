//! Declarations, uses and scopes of a C text. What a name stands for is the size of the object.

use pw_scope::{
    Scopes, declared_is_visible, inner_hides_outer, leaving_restores, nothing_at_first, others_stay,
};
use std::alloc::{AllocError, Global};
use std::test::Fail;

#[derive(Clone, Copy)]
enum Step {
    /// `char NAME[SIZE];`, or with no size `extern char NAME[];`
    Declare(&'static [u8], Option<u32>),
    /// `sizeof NAME`: None where the name is not declared, Some(None) where it has no size.
    Use(&'static [u8], Option<Option<u32>>),
    /// `{`
    Enter,
    /// `}`
    Leave,
    /// So many names are in scope.
    Count(usize),
    /// Only the first so many names stay.
    Cut(usize),
}

use Step::{Count, Cut, Declare, Enter, Leave, Use};

static STEPS: [Step; 50] = [
    Use(b"i", None),
    Declare(b"i", Some(1)),
    Declare(b"f", Some(2)),
    Use(b"i", Some(Some(1))),
    Enter,
    Use(b"i", Some(Some(1))),
    Declare(b"i", Some(3)),
    Use(b"i", Some(Some(3))),
    Use(b"f", Some(Some(2))),
    Enter,
    Use(b"i", Some(Some(3))),
    Declare(b"i", Some(4)),
    Declare(b"f", Some(5)),
    Declare(b"ii", Some(6)),
    Use(b"i", Some(Some(4))),
    Use(b"f", Some(Some(5))),
    Use(b"ii", Some(Some(6))),
    Use(b"if_", None),
    Enter,
    Declare(b"ii", Some(7)),
    Declare(b"iii", Some(8)),
    Use(b"ii", Some(Some(7))),
    Use(b"i", Some(Some(4))),
    Leave,
    Use(b"ii", Some(Some(6))),
    Use(b"iii", None),
    Leave,
    Use(b"i", Some(Some(3))),
    Use(b"f", Some(Some(2))),
    Use(b"ii", None),
    // In one scope the later declaration counts.
    Enter,
    Declare(b"n", None),
    Use(b"n", Some(None)),
    Declare(b"n", Some(9)),
    Use(b"n", Some(Some(9))),
    Leave,
    Use(b"n", None),
    Leave,
    Use(b"i", Some(Some(1))),
    Use(b"f", Some(Some(2))),
    Enter,
    Leave,
    Use(b"i", Some(Some(1))),
    Use(b"", None),
    Count(2),
    Cut(3),
    Use(b"f", Some(Some(2))),
    Cut(0),
    Count(0),
    Use(b"f", None),
];

/// Takes a step, and says whether the names are as it says.
fn take(
    scopes: &mut Scopes<'static, Option<u32>>,
    starts: &mut Vec<usize>,
    step: Step,
) -> Result<bool, AllocError> {
    match step {
        Declare(name, size) => scopes.declare(name, size)?,
        Use(name, size) => return Ok(scopes.visible(name) == size),
        Enter => starts.push(scopes.len())?,
        Leave => scopes.leave(starts.pop().unwrap_or(0)),
        Count(count) => return Ok(scopes.len() == count && scopes.is_empty() == (count == 0)),
        Cut(count) => scopes.leave(count),
    }
    Ok(true)
}

/// How many steps leave the names as they say, up to the first that does not.
fn steps_taken(alloc: Global) -> Result<usize, AllocError> {
    let mut scopes = Scopes::new(alloc);
    let mut starts = Vec::new(alloc);
    for (at, step) in STEPS.iter().enumerate() {
        if !take(&mut scopes, &mut starts, *step)? {
            return Ok(at);
        }
    }
    Ok(STEPS.len())
}

#[test]
fn names_stand_for_their_last_declaration(rt: HostRuntime) -> Result<(), Fail> {
    let taken = steps_taken(rt.alloc())?;
    assert!(rt; taken == STEPS.len(), "{taken}");
    Ok(())
}

/// Whether `T` and `t` stand for what they should at other places of a text than where it declares them.
fn are_typedefs(alloc: Global) -> Result<bool, AllocError> {
    let text = b"typedef int T; T t;";
    let mut scopes = Scopes::new(alloc);
    scopes.declare(&text[12..13], true)?;
    scopes.declare(&text[17..18], false)?;
    Ok(scopes.visible(&text[15..16]) == Some(true) && scopes.visible(b"t") == Some(false))
}

#[test]
fn names_are_bytes_and_no_places(rt: HostRuntime) -> Result<(), Fail> {
    assert!(rt; are_typedefs(rt.alloc())?);
    Ok(())
}

#[test]
fn laws() {
    nothing_at_first::<bool>();
    declared_is_visible::<bool>();
    others_stay::<bool>();
    inner_hides_outer::<bool>();
    leaving_restores::<bool>();
}
