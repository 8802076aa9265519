//! String literals as initialisers of arrays of characters (C90 6.5.7).

ghost use Rattle.std.specs.Prelude.{◌≡◌};
ghost use Rattle.pw_check_state.specs.Follows.{Follows};
ghost use Rattle.pw_check_state.specs.StateViews.{view_state};
ghost use Rattle.pw_check_init_parts.specs.Strings as strings;
ghost use Rattle.pw_check_init_parts.specs.FilledViews.{view_context, view_filled};
ghost use Rattle.pw_check_init_parts.specs.PlaceViews.{view_target};
ghost use Rattle.pw_check_rules.specs.Initialisers as spec;
ghost use Rattle.pw_tree.specs.Views.{view_words};
ghost use Rattle.pw_types.specs.Views.{view_type};

use crate::filled::{Context, Filled};
use crate::parts::Target;
use pw_check_leaves::{string_bytes, string_type};
use pw_check_state::{State, typing};
use pw_check_walk::CheckFault;
use pw_tree::{Word, first_of_words};
use pw_typed::{TExpr, TForm, TItem};
use pw_types::CType;
use std::alloc::Global;

/// Whether an array has room for so many characters: the zero behind them may be left out.
#[tactic(auto, unfolding(pw_types::specs::Views::view_type), using(pw_types::proofs::ViewLemmas::signature_view))]
fn string_fits(ty: &CType, count: usize) -> bool
    ensures { result ≡ spec.string_fits (view_type ty.now) count }
{
    match ty {
        CType::Array(_, Some(length)) => count as u64 <= u64::from(*length),
        CType::Array(_, None)
        | CType::Void
        | CType::Int(_)
        | CType::Pointer(_)
        | CType::Function(_)
        | CType::Record(_) => true,
    }
}

/// As many of the bytes as an array has room for.
#[tactic(auto, unfolding(pw_types::specs::Views::view_type), using(pw_types::proofs::ViewLemmas::signature_view))]
fn bytes_within(ty: &CType, bytes: Vec<u8>) -> Vec<u8>
    ensures { result.items ≡ spec.bytes_within (view_type ty.now) bytes.items }
{
    let mut bytes = bytes;
    match ty {
        CType::Array(_, Some(length)) => bytes.truncate(*length as usize),
        CType::Array(_, None)
        | CType::Void
        | CType::Int(_)
        | CType::Pointer(_)
        | CType::Function(_)
        | CType::Record(_) => {}
    }
    bytes
}

/// A string literal with these bytes for an array of characters.
#[tactic(auto, unfolding(pw_check_walk::specs::Walks::bind, pw_check_walk::specs::Walks::outcome, crate::specs::Strings::bytes_filled, pw_typed::specs::Views::view_form))]
pub fn bytes_filled(
    alloc: Global,
    state: &State<'_>,
    cx: &Context,
    words: &[Word],
    bytes: Vec<u8>,
    target: &Target,
    filled: Filled,
) -> Result<Filled, CheckFault>
    ensures { Follows view_filled (strings.bytes_filled (view_context cx.now) (view_words words.now) bytes.items (view_target target.now) (view_filled filled)) (view_state state.now) result }
{
    let ty = &target.ty.ty;
    if !string_fits(ty, bytes.len().saturating_sub(1)) {
        return Err(typing(cx.token));
    }
    let part = TExpr {
        token: first_of_words(words),
        ty: string_type(alloc, &bytes)?,
        form: TForm::Str(cx.hidden),
    };
    let item = TItem::Bytes(bytes_within(ty, bytes));
    Ok(filled.with(target.offset, Some(item), part)?)
}

/// A string literal for an array of characters.
pub fn string_filled(
    alloc: Global,
    state: &State<'_>,
    cx: &Context,
    words: &[Word],
    target: &Target,
    filled: Filled,
) -> Result<Filled, CheckFault>
    ensures { Follows view_filled (spec.string_filled (view_context cx.now) (view_words words.now) (view_target target.now) (view_filled filled)) (view_state state.now) result }
{
    let bytes = string_bytes(alloc, state, words)?;
    bytes_filled(alloc, state, cx, words, bytes, target, filled)
}
