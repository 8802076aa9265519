//! Where a list's initialisers stand: the objects that are initialised, the innermost last.

ghost use Rattle.std.specs.Prelude.{◌≡◌, ◌^◌, ◌≤◌, ◌||◌, [], ◌∷◌, false, is_some, option_map, slice_get, true, IfNone, IfOk, IfSome, MatchResult};
ghost use Rattle.std.specs.Option.{option_copied};
ghost use Rattle.pw_check_init_parts.specs.PlaceViews.{view_cursor, view_frame, view_target};
ghost use Rattle.pw_check_rules.specs.Initialisers as spec;
ghost use Rattle.pw_check_rules.specs.Leaves.{is_nil};

use crate::parts::{Frame, Target, frame_of, has_part, next_part, one_on};
use pw_check_types::is_scalar;
use pw_types::Types;
use std::alloc::{AllocError, Global};

/// The innermost of the objects that are being initialised (C90 6.5.7), or None where there is none.
#[tactic(auto, using(crate::proofs::CursorLemmas::innermost_last))]
pub fn innermost(cursor: &[Frame]) -> Option<&Frame>
    ensures { option_map view_frame (option_copied result) ≡ slice_get (view_cursor cursor.now) 0 }
{
    cursor.last()
}

/// Whether an object is not left yet: it has parts left, or no object is around it.
fn is_left(types: &Types, after: &Frame, outer: &[Frame]) -> bool
    ensures { result ≡ (is_some (spec.next_part types.now (view_frame after.now)) || is_nil (view_cursor outer.now)) }
{
    has_part(types, after) || outer.is_empty()
}

/// An object that is not left yet.
fn staying(types: &Types, after: Frame, outer: &[Frame]) -> Option<Frame>
    ensures same { IfSome result (λ f. view_frame f ≡ view_frame after) }
    ensures stays { IfSome result (λ f. (is_some (spec.next_part types.now (view_frame after)) || is_nil (view_cursor outer.now)) ≡ true) }
    ensures leaves { IfNone result ((is_some (spec.next_part types.now (view_frame after)) || is_nil (view_cursor outer.now)) ≡ false) }
{
    if is_left(types, &after, outer) {
        Some(after)
    } else {
        None
    }
}

/// Behind the part that came: an object without parts left is left, but for the outermost.
pub fn passed(types: &Types, cursor: Vec<Frame>) -> Result<Vec<Frame>, AllocError>
    ensures { IfOk result (λ after. view_cursor after.items ≡ spec.passed types.now (view_cursor cursor.items)) }
{
    let mut cursor = cursor;
    while let Some(frame) = cursor.pop() {
        let after = one_on(frame)?;
        if let Some(after) = staying(types, after, &cursor) {
            cursor.push(after)?;
            return Ok(cursor);
        }
    }
    Ok(cursor)
}

/// How many elements a list gave to the array in braces. Want of memory is the answer for a count that 64 bits do not
/// hold, and for no other.
pub fn elements_given(cursor: &[Frame]) -> Result<u64, AllocError>
    ensures { MatchResult result (λ n. n ≡ spec.elements_given (view_cursor cursor.now)) (λ _. 2 ^ 64 ≤ spec.elements_given (view_cursor cursor.now)) }
{
    let Some((outermost, within)) = cursor.split_first() else {
        return Ok(0);
    };
    if within.is_empty() {
        return Ok(outermost.next);
    }
    match outermost.next.checked_add(1) {
        Some(count) => Ok(count),
        None => Err(AllocError),
    }
}

/// Braces are for the next part itself, and a scalar has one pair at most.
pub fn takes_braces(cursor: &[Frame]) -> bool
    ensures { result ≡ spec.takes_braces (view_cursor cursor.now) }
{
    match innermost(cursor) {
        Some(frame) => !is_scalar(&frame.ty),
        None => false,
    }
}

/// The part that comes next, within the innermost object.
pub fn next_target(
    alloc: Global,
    types: &Types,
    cursor: &[Frame],
) -> Result<Option<Target>, AllocError>
    ensures { IfOk result (λ t. option_map view_target t ≡ spec.next_target types.now (view_cursor cursor.now)) }
{
    match innermost(cursor) {
        Some(frame) => next_part(alloc, types, frame),
        None => Ok(None),
    }
}

/// The cursor of a list in braces for a part: the part alone.
pub fn within_braces(alloc: Global, target: Target) -> Result<Vec<Frame>, AllocError>
    ensures { IfOk result (λ cursor. view_cursor cursor.items ≡ spec.frame_of (view_target target) ∷ []) }
{
    let mut cursor = Vec::new(alloc);
    cursor.push(frame_of(target))?;
    Ok(cursor)
}
