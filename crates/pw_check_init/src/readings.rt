//! Lists of initialisers in braces, one within another. They are gone down by a loop, which keeps the lists around.

ghost use Rattle.std.specs.Prelude.{◌≡◌, ◌+◌, ◌<◌, ◌≤◌, false, IfOk};
ghost use Rattle.pw_check_state.specs.Follows.{Follows, Leads};
ghost use Rattle.pw_check_state.specs.StateViews.{view_state};
ghost use Rattle.pw_check_init.specs.Readings as reading;
ghost use Rattle.pw_check_init_parts.specs.FilledViews.{view_context, view_filled};
ghost use Rattle.pw_check_init.specs.Views.{view_around, view_listed, view_outer, view_reading};
ghost use Rattle.pw_check_init_parts.specs.PlaceViews.{view_cursor, view_target};
ghost use Rattle.pw_check_rules.specs.Initialisers as spec;
ghost use Rattle.pw_check_rules.specs.Leaves.{is_nil};
ghost use Rattle.pw_tree.specs.Views.{view_expr, view_inits, view_words};

use crate::lists::{Listed, braced_target, listed_form};
use pw_check_init_parts::{
    Context, Filled, Frame, Target, braced_string, filling_string, passed, string_filled,
    within_braces,
};
use pw_check_state::{Phrases, State};
use pw_check_walk::CheckFault;
use pw_tree::{Expr, Init, Word, statements_show_their_lists};
use pw_types::Types;
use std::alloc::{AllocError, Global};

/// A list around: what of it stands behind the list in braces, and where it goes on behind the part that this is for.
#[derive(Drop)]
pub struct Around<'a> {
    pub items: &'a [Init],
    pub cursor: Vec<Frame>,
}

/// What is left of the list that is read, the lists around it, the innermost last, and what was given so far.
#[derive(Drop)]
pub struct Reading<'a> {
    pub items: &'a [Init],
    pub outer: Vec<Around<'a>>,
    pub listed: Listed,
}

/// Whether nothing is left of a list.
#[tactic(auto, using(crate::proofs::ReadingLemmas::none_left))]
fn is_none_left(items: &[Init]) -> bool
    ensures { result ≡ reading.is_none_left (view_inits items.now) }
{
    items.is_empty()
}

/// Whether no list is around.
#[tactic(auto, using(crate::proofs::ReadingLemmas::none_around))]
fn is_none_around(outer: &[Around<'_>]) -> bool
    ensures { result ≡ is_nil (view_outer outer.now) }
{
    outer.is_empty()
}

impl<'a> Reading<'a> {
    /// Whether nothing is left.
    fn is_over(&self) -> bool
        ensures { result ≡ reading.is_over (view_reading self.now) }
    {
        is_none_left(self.items) && is_none_around(&self.outer)
    }
}

/// Behind a list in braces: the list around goes on.
fn behind_list<'a>(
    types: &Types,
    around: Around<'a>,
    outer: Vec<Around<'a>>,
    filled: Filled,
) -> Result<Reading<'a>, AllocError>
    ensures { IfOk result (λ after. view_reading after ≡ reading.behind_list types.now (view_around around.entry) (view_outer outer.entry.items) (view_filled filled)) }
{
    let cursor = passed(types, around.cursor)?;
    Ok(Reading {
        items: around.items,
        outer,
        listed: Listed { cursor, filled },
    })
}

/// Into a list in braces for this part.
#[tactic(auto, using(pw_check_state::proofs::PlaceLemmas::reverse_push))]
fn inward<'a>(
    alloc: Global,
    around: Around<'a>,
    outer: Vec<Around<'a>>,
    filled: Filled,
    target: Target,
    items: &'a [Init],
) -> Result<Reading<'a>, AllocError>
    ensures { IfOk result (λ after. view_reading after ≡ reading.inward (view_around around.entry) (view_outer outer.entry.items) (view_filled filled) (view_target target) (view_inits items.now)) }
{
    let mut outer = outer;
    outer.push(around)?;
    let cursor = within_braces(alloc, target)?;
    Ok(Reading {
        items,
        outer,
        listed: Listed { cursor, filled },
    })
}

/// Behind the list that is read, of which nothing is left.
fn outward<'a>(types: &Types, x: Reading<'a>) -> Result<Reading<'a>, AllocError>
    ensures { IfOk result (λ after. view_reading after ≡ reading.outward types.now (view_reading x.entry)) }
{
    let Reading {
        items,
        outer,
        listed,
    } = x;
    let mut outer = outer;
    match outer.pop() {
        Some(around) => behind_list(types, around, outer, listed.filled),
        None => Ok(Reading {
            items,
            outer,
            listed,
        }),
    }
}

/// Behind an expression.
fn value_turn<'a, P: Phrases<'a>>(
    alloc: Global,
    phrases: &P,
    state: &mut State<'a>,
    cx: &Context,
    x: Reading<'a>,
    expr: &'a Expr,
    rest: &'a [Init],
) -> Result<Reading<'a>, CheckFault>
    requires { P.can_check phrases.now }
    ensures turn { Leads view_reading (reading.value_turn (view_context cx.now) (view_reading x.entry) (view_expr expr.now) (view_inits rest.now)) (view_state state.old) result (view_state state.new) }
    ensures left { IfOk result (λ after. reading.left_of (view_reading after) ≡ reading.count_of_inits (view_inits rest.now) + reading.count_around (view_outer x.entry.outer.items)) }
{
    let Reading { outer, listed, .. } = x;
    let listed = listed_form(alloc, phrases, state, cx, listed, expr)?;
    Ok(Reading {
        items: rest,
        outer,
        listed,
    })
}

/// Behind a list in braces that is one string for an array of characters.
fn string_turn<'a>(
    alloc: Global,
    state: &State<'a>,
    cx: &Context,
    words: &[Word],
    around: Around<'a>,
    outer: Vec<Around<'a>>,
    target: &Target,
    filled: Filled,
) -> Result<Reading<'a>, CheckFault>
    ensures turn { Follows view_reading (reading.string_turn (view_context cx.now) (view_words words.now) (view_around around.entry) (view_outer outer.entry.items) (view_target target.now) (view_filled filled)) (view_state state.now) result }
    ensures left { IfOk result (λ after. reading.left_of (view_reading after) ≡ reading.count_of_inits (view_inits around.entry.items.now) + reading.count_around (view_outer outer.entry.items)) }
{
    let filled = string_filled(alloc, state, cx, words, target, filled)?;
    Ok(behind_list(state.records(), around, outer, filled)?)
}

/// Into a list in braces; or behind it, where it is one string for an array of characters.
fn braces_turn<'a>(
    alloc: Global,
    state: &State<'a>,
    cx: &Context,
    x: Reading<'a>,
    items: &'a [Init],
    rest: &'a [Init],
) -> Result<Reading<'a>, CheckFault>
    ensures turn { Follows view_reading (reading.braces_turn (view_context cx.now) (view_reading x.entry) (view_inits items.now) (view_inits rest.now)) (view_state state.now) result }
    ensures left { IfOk result (λ after. reading.left_of (view_reading after) ≤ reading.count_of_inits (view_inits items.now) + reading.count_of_inits (view_inits rest.now) + reading.count_around (view_outer x.entry.outer.items) + 1) }
{
    let Reading { outer, listed, .. } = x;
    let Listed { cursor, filled } = listed;
    let target = braced_target(alloc, state, cx, &cursor)?;
    let around = Around {
        items: rest,
        cursor,
    };
    let words = filling_string(&target.ty.ty, braced_string(items));
    match words {
        Some(words) => string_turn(alloc, state, cx, words, around, outer, &target, filled),
        None => Ok(inward(alloc, around, outer, filled, target, items)?),
    }
}

/// The next initialiser, or the end of a list.
fn turn<'a, P: Phrases<'a>>(
    alloc: Global,
    phrases: &P,
    state: &mut State<'a>,
    cx: &Context,
    x: Reading<'a>,
) -> Result<Reading<'a>, CheckFault>
    requires { P.can_check phrases.now }
    ensures turn { Leads view_reading (reading.turn_rule (view_context cx.now) (view_reading x.entry)) (view_state state.old) result (view_state state.new) }
    ensures shorter { IfOk result (λ after. reading.is_over (view_reading x.entry) ≡ false → reading.left_of (view_reading after) < reading.left_of (view_reading x.entry)) }
{
    match x.items.split_first() {
        Some((first, rest)) => match first {
            Init::Value(e) => value_turn(alloc, phrases, state, cx, x, e, rest),
            Init::List { items, .. } => {
                statements_show_their_lists();
                braces_turn(alloc, state, cx, x, items, rest)
            }
        },
        None => Ok(outward(state.records(), x)?),
    }
}

/// The initialisers of a list, one after another.
pub(crate) fn inits_rule<'a, P: Phrases<'a>>(
    alloc: Global,
    phrases: &P,
    state: &mut State<'a>,
    cx: &Context,
    before: Listed,
    items: &'a [Init],
) -> Result<Listed, CheckFault>
    requires { P.can_check phrases.now }
    ensures { Leads view_listed (spec.inits_rule (view_inits items.now) (view_context cx.now) (view_cursor before.cursor.items) (view_filled before.filled)) (view_state state.old) result (view_state state.new) }
{
    let mut x = Reading {
        items,
        outer: Vec::new(alloc),
        listed: before,
    };
    while !x.is_over() {
        x = turn(alloc, phrases, state, cx, x)?;
    }
    Ok(x.listed)
}
