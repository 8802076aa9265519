//! The part that an initialiser without braces of its own is for.

ghost use Rattle.std.specs.Prelude.{◌≡◌, ◌++◌, ◌||◌, option_map, IfOk};
ghost use Rattle.pw_check_init_parts.specs.PlaceViews.{view_cursor, view_reached, view_takes, view_target};
ghost use Rattle.pw_check_rules.specs.Initialisers as spec;
ghost use Rattle.pw_check_rules.specs.Kinds.{is_scalar};
ghost use Rattle.pw_types.specs.Views.{view_type};

use crate::cursor::{innermost, next_target, passed};
use crate::parts::{Frame, Target, frame_of, next_part};
use pw_check_operands::same_record;
use pw_check_types::{is_character_array, is_scalar};
use pw_types::{CType, Types};
use pw_value::limits::DEPTH_LIMIT;
use std::alloc::{AllocError, Global};

/// Which part an initialiser takes whole: a string an array of characters, an expression a structure or union of its
/// own type.
#[derive(Clone, Copy)]
pub enum Takes<'t> {
    /// An array of characters, which a string initialises.
    Characters,
    /// A structure or union of this type, which an expression of the same type initialises.
    Record(&'t CType),
}

/// The part that comes next, and the objects around it that were entered for it, the innermost last.
#[derive(Drop)]
pub struct Reached {
    pub target: Target,
    pub within: Vec<Frame>,
}

impl<'t> Takes<'t> {
    /// Whether an initialiser is for a part of this type: a scalar, or what it takes whole.
    fn ends_at(&self, ty: &CType) -> bool
        ensures { result ≡ (is_scalar (view_type ty.now) || view_takes self.now (view_type ty.now)) }
    {
        is_scalar(ty)
            || match self {
                Takes::Characters => is_character_array(ty),
                Takes::Record(own) => same_record(ty, own),
            }
    }
}

/// The part that comes next within the innermost object, of those that were entered or of those around them.
fn next_within(
    alloc: Global,
    types: &Types,
    within: &[Frame],
    cursor: &[Frame],
) -> Result<Option<Target>, AllocError>
    ensures { IfOk result (λ t. option_map view_target t ≡ spec.next_target types.now (view_cursor within.now ++ view_cursor cursor.now)) }
{
    match innermost(within) {
        Some(frame) => next_part(alloc, types, frame),
        None => next_target(alloc, types, cursor),
    }
}

/// The next part that an initialiser is for: a scalar, or a part that it takes whole; else inside the part, so deep a
/// type at most.
pub fn reach(
    alloc: Global,
    types: &Types,
    takes: Takes<'_>,
    cursor: &[Frame],
) -> Result<Option<Reached>, AllocError>
    ensures { IfOk result (λ r. option_map (view_reached (view_cursor cursor.now)) r ≡ spec.reach types.now (view_takes takes.entry) (view_cursor cursor.now)) }
{
    let mut within = Vec::new(alloc);
    for _level in 0..DEPTH_LIMIT + 1 {
        let part = next_within(alloc, types, &within, cursor)?;
        let Some(target) = part else {
            return Ok(None);
        };
        if takes.ends_at(&target.ty.ty) {
            return Ok(Some(Reached { target, within }));
        }
        within.push(frame_of(target))?;
    }
    Ok(None)
}

/// Whether a string comes to an array of characters.
pub fn meets_characters(alloc: Global, types: &Types, cursor: &[Frame]) -> Result<bool, AllocError>
    ensures { IfOk result (λ meets. meets ≡ spec.meets_characters types.now (view_cursor cursor.now)) }
{
    match reach(alloc, types, Takes::Characters, cursor)? {
        Some(reached) => Ok(is_character_array(&reached.target.ty.ty)),
        None => Ok(false),
    }
}

/// The cursor behind a part that was reached, where these objects were entered for it.
pub fn behind(
    types: &Types,
    cursor: Vec<Frame>,
    within: Vec<Frame>,
) -> Result<Vec<Frame>, AllocError>
    ensures { IfOk result (λ after. view_cursor after.items ≡ spec.passed types.now (view_cursor within.items ++ view_cursor cursor.items)) }
{
    let mut cursor = cursor;
    let mut within = within;
    cursor.append(&mut within)?;
    passed(types, cursor)
}
