//! Lists of initialisers in braces.

ghost use Rattle.std.specs.Prelude.{◌≡◌, is_some, IfOk, IfSome};
ghost use Rattle.pw_check_state.specs.Follows.{Follows, Leads};
ghost use Rattle.pw_check_state.specs.StateViews.{view_state};
ghost use Rattle.pw_check_state.specs.Views.{view_node};
ghost use Rattle.pw_check_init.specs.Placing.{comes_whole, reached_rule};
ghost use Rattle.pw_check_init_parts.specs.FilledViews.{view_context, view_filled, view_string_form};
ghost use Rattle.pw_check_init.specs.Views.{view_listed};
ghost use Rattle.pw_check_init_parts.specs.PlaceViews.{view_cursor, view_reached, view_takes, view_target};
ghost use Rattle.pw_check_rules.specs.Initialisers as spec;
ghost use Rattle.pw_tree.specs.Views.{view_expr, view_words};

use pw_check_init_parts::{
    Context, Filled, Frame, Reached, Takes, Target, behind, meets_characters, next_target, reach,
    string_filled, string_form, takes_braces, value_filled,
};
use pw_check_state::{Phrases, State, typing, whole_rule};
use pw_check_walk::CheckFault;
use pw_tree::{Expr, Word};
use pw_typed::TExpr;
use pw_types::Types;
use std::alloc::{AllocError, Global};

/// Where a list stands, and what it has given.
#[derive(Drop)]
pub struct Listed {
    pub cursor: Vec<Frame>,
    pub filled: Filled,
}

/// The part that an initialiser without braces comes to, and the objects that are entered for it.
#[tactic(auto, unfolding(pw_check_walk::specs::Walks::bind, pw_check_walk::specs::Walks::outcome, crate::specs::Placing::reached_rule))]
fn reached_part(
    alloc: Global,
    state: &State<'_>,
    cx: &Context,
    takes: Takes<'_>,
    cursor: &[Frame],
) -> Result<Reached, CheckFault>
    ensures { Follows (view_reached (view_cursor cursor.now)) (reached_rule (view_context cx.now) (view_takes takes.entry) (view_cursor cursor.now)) (view_state state.now) result }
{
    match reach(alloc, state.records(), takes, cursor)? {
        Some(reached) => Ok(reached),
        None => Err(typing(cx.token)),
    }
}

/// The value of an expression in a list.
fn listed_value(
    alloc: Global,
    state: &State<'_>,
    cx: &Context,
    before: Listed,
    first: usize,
    e: Box<TExpr>,
) -> Result<Listed, CheckFault>
    ensures { Follows view_listed (spec.listed_value (view_context cx.now) (view_cursor before.cursor.items) (view_filled before.filled) first (view_node e)) (view_state state.now) result }
{
    let Listed { cursor, filled } = before;
    let takes = Takes::Record(&e.ty.ty);
    let reached = reached_part(alloc, state, cx, takes, &cursor)?;
    let Reached { target, within } = reached;
    let filled = value_filled(alloc, state, cx, first, &target, e, filled)?;
    let cursor = behind(state.records(), cursor, within)?;
    Ok(Listed { cursor, filled })
}

/// A string literal in a list, for an array of characters.
fn listed_string(
    alloc: Global,
    state: &State<'_>,
    cx: &Context,
    before: Listed,
    words: &[Word],
) -> Result<Listed, CheckFault>
    ensures { Follows view_listed (spec.listed_string (view_context cx.now) (view_cursor before.cursor.items) (view_filled before.filled) (view_words words.now)) (view_state state.now) result }
{
    let Listed { cursor, filled } = before;
    let takes = Takes::Characters;
    let reached = reached_part(alloc, state, cx, takes, &cursor)?;
    let Reached { target, within } = reached;
    let filled = string_filled(alloc, state, cx, words, &target, filled)?;
    let cursor = behind(state.records(), cursor, within)?;
    Ok(Listed { cursor, filled })
}

/// An expression in a list.
fn listed_expression<'a, P: Phrases<'a>>(
    alloc: Global,
    phrases: &P,
    state: &mut State<'a>,
    cx: &Context,
    before: Listed,
    expr: &'a Expr,
) -> Result<Listed, CheckFault>
    requires { P.can_check phrases.now }
    ensures { Leads view_listed (spec.listed_expression (view_context cx.now) (view_cursor before.cursor.items) (view_filled before.filled) (view_expr expr.now)) (view_state state.old) result (view_state state.new) }
{
    let e = whole_rule(alloc, phrases, state, expr)?;
    listed_value(alloc, state, cx, before, expr.first_token(), e)
}

/// The words of a string literal, where it comes to an array of characters, which it initialises whole.
fn coming_string<'w>(
    alloc: Global,
    types: &Types,
    cursor: &[Frame],
    words: Option<&'w [Word]>,
) -> Result<Option<&'w [Word]>, AllocError>
    ensures words { IfOk result (λ coming. IfSome coming (λ ws. spec.words_in (view_string_form words.entry) ≡ view_words ws.now)) }
    ensures whole { IfOk result (λ coming. comes_whole types.now (view_cursor cursor.now) (view_string_form words.entry) ≡ is_some coming) }
{
    let Some(words) = words else {
        return Ok(None);
    };
    if meets_characters(alloc, types, cursor)? {
        Ok(Some(words))
    } else {
        Ok(None)
    }
}

/// An expression or a string literal in a list.
pub(crate) fn listed_form<'a, P: Phrases<'a>>(
    alloc: Global,
    phrases: &P,
    state: &mut State<'a>,
    cx: &Context,
    before: Listed,
    expr: &'a Expr,
) -> Result<Listed, CheckFault>
    requires { P.can_check phrases.now }
    ensures { Leads view_listed (spec.listed_form (view_context cx.now) (view_cursor before.cursor.items) (view_filled before.filled) (view_expr expr.now) (spec.string_form (view_expr expr.now))) (view_state state.old) result (view_state state.new) }
{
    let words = string_form(expr);
    let coming = coming_string(alloc, state.records(), &before.cursor, words)?;
    match coming {
        Some(words) => listed_string(alloc, state, cx, before, words),
        None => listed_expression(alloc, phrases, state, cx, before, expr),
    }
}

/// The part that a list in braces is for.
#[tactic(auto, unfolding(pw_check_walk::specs::Walks::bind, pw_check_walk::specs::Walks::outcome, pw_check_rules::specs::Initialisers::braced_target))]
pub(crate) fn braced_target(
    alloc: Global,
    state: &State<'_>,
    cx: &Context,
    cursor: &[Frame],
) -> Result<Target, CheckFault>
    ensures { Follows view_target (spec.braced_target (view_context cx.now) (view_cursor cursor.now)) (view_state state.now) result }
{
    if !takes_braces(cursor) {
        return Err(typing(cx.token));
    }
    match next_target(alloc, state.records(), cursor)? {
        Some(target) => Ok(target),
        None => Err(typing(cx.token)),
    }
}
