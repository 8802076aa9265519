//! Locals of automatic storage duration.

ghost use Rattle.std.specs.Prelude.{◌≡◌, false, [], ◌∷◌, map, IfOk, OnOk};
ghost use Rattle.pw_check_state.specs.Follows.{Leads};
ghost use Rattle.pw_check_state.specs.PhraseViews.{view_specified};
ghost use Rattle.pw_check_state.specs.StateViews.{view_state};
ghost use Rattle.pw_check_objects.specs.Parts as part;
ghost use Rattle.pw_check_objects.specs.Views.{view_local_made, view_made};
ghost use Rattle.pw_check_rules.specs.Declarations as spec;
ghost use Rattle.pw_check_rules.specs.Initialisers.{is_by_bytes};
ghost use Rattle.pw_check_rules.specs.States as states;
ghost use Rattle.pw_tree.specs.Views.{view_init, view_initializer, view_word};
ghost use Rattle.pw_typed.specs.Views.{view_expr, view_local};
ghost use Rattle.pw_types.specs.TypeTrees.{type_of};
ghost use Rattle.pw_types.specs.TypedTrees as tree;
ghost use Rattle.pw_types.specs.Views.{view_qtype};

use crate::statics::{hidden_begun, hidden_filled, object_completed, place_here};
use pw_check_decl_names::is_register;
use pw_check_init::{Initialised, is_by_bytes, object_rule};
use pw_check_init_parts::{Context, Filled};
use pw_check_state::{Entity, Phrases, Specified, State};
use pw_check_types::{copy_qtype, is_const_object};
use pw_check_walk::CheckFault;
use pw_tree::{Init, Initializer, Word};
use pw_typed::{Initialiser, Local, TExpr};
use pw_types::QType;
use pw_value::Name;
use std::alloc::{AllocError, Global};

/// A local's type, whose length its initialiser may give, and the initialiser, if it has one.
#[derive(Drop)]
pub struct Made {
    pub ty: QType,
    pub initialisers: Vec<Initialiser>,
}

/// A local of this name and type. A name that no local may have, no rule lets come: it answers want of memory.
fn local_of(alloc: Global, word: &Word, q: &QType) -> Result<Local, AllocError>
    ensures { IfOk result (λ l. view_local l ≡ spec.local_of (view_word word.now) (view_qtype q.now)) }
{
    let name = Name::lawful(alloc, &word.text)?;
    Ok(Local {
        name,
        ty: copy_qtype(alloc, q)?,
        writable: !is_const_object(q),
    })
}

/// The initialiser of a local by the bytes of a hidden object.
fn by_bytes(
    alloc: Global,
    place: u32,
    hidden: u32,
    parts: Vec<TExpr>,
) -> Result<Vec<Initialiser>, AllocError>
    ensures { IfOk result (λ all. view_made all ≡ tree.Bytes place hidden (map view_expr parts.items) ∷ []) }
{
    let mut initialisers = Vec::new(alloc);
    initialisers.push(Initialiser::Bytes(place, hidden, parts))?;
    Ok(initialisers)
}

/// A hidden object for the bytes of a local, which are not known yet. The answer is its number.
fn bytes_begun(alloc: Global, state: &mut State<'_>, q: &QType) -> Result<u32, AllocError>
    ensures number { IfOk result (λ h. h ≡ states.next_hidden (view_state state.old)) }
    ensures state { IfOk result (λ h. view_state state.new ≡ states.add_hidden (spec.hidden_of (view_qtype q.now) [] false) (view_state state.old)) }
{
    let hidden = state.next_hidden()?;
    let begun = hidden_begun(alloc, q, false)?;
    state.add_hidden(begun)?;
    Ok(hidden)
}

/// By the bytes of a hidden object, which is made before what is in it.
fn bytes_rule<'a, P: Phrases<'a>>(
    alloc: Global,
    phrases: &P,
    state: &mut State<'a>,
    word: &'a Word,
    place: u32,
    q: QType,
    init: &'a Init,
) -> Result<Made, CheckFault>
    requires { P.can_check phrases.now }
    ensures { Leads view_local_made (spec.bytes_rule (view_word word.now) place (view_qtype q) (view_init init.now)) (view_state state.old) result (view_state state.new) }
{
    let hidden = bytes_begun(alloc, state, &q)?;
    let cx = Context {
        token: word.token,
        constant: true,
        hidden,
    };
    let made = object_completed(alloc, phrases, state, word, &cx, q, init)?;
    let Initialised { ty, filled } = made;
    let Filled { items, parts } = filled;
    let object = hidden_filled(alloc, &ty, items, false)?;
    state.put_hidden(hidden, object);
    let initialisers = by_bytes(alloc, place, hidden, parts)?;
    Ok(Made { ty, initialisers })
}

/// The initialiser of a local by the first of these expressions.
#[tactic(auto, using(crate::proofs::ObjectLemmas::first_taken, crate::proofs::ObjectLemmas::none_taken))]
fn by_first(alloc: Global, place: u32, parts: Vec<TExpr>) -> Result<Vec<Initialiser>, AllocError>
    ensures { IfOk result (λ all. view_made all ≡ spec.first_part (map view_expr parts.items) [] (λ e. tree.Value place e)) }
{
    if parts.is_empty() {
        return Ok(Vec::new(alloc));
    }
    let mut parts = parts;
    let first = parts.swap_remove(0);
    let mut initialisers = Vec::new(alloc);
    initialisers.push(Initialiser::Value(place, first))?;
    Ok(initialisers)
}

/// By one expression.
fn single_rule<'a, P: Phrases<'a>>(
    alloc: Global,
    phrases: &P,
    state: &mut State<'a>,
    word: &'a Word,
    place: u32,
    q: QType,
    init: &'a Init,
) -> Result<Made, CheckFault>
    requires { P.can_check phrases.now }
    ensures { Leads view_local_made (spec.single_rule (view_word word.now) place (view_qtype q) (view_init init.now)) (view_state state.old) result (view_state state.new) }
{
    let cx = Context {
        token: word.token,
        constant: false,
        hidden: 0,
    };
    let ty = copy_qtype(alloc, &q)?;
    let made = object_rule(alloc, phrases, state, &cx, q, init)?;
    let Initialised { filled, .. } = made;
    let Filled { parts, .. } = filled;
    let initialisers = by_first(alloc, place, parts)?;
    Ok(Made { ty, initialisers })
}

/// The initialiser of a local, by the bytes of a hidden object or by one expression.
#[tactic(auto, unfolding(pw_check_rules::specs::Declarations::local_initialiser))]
fn local_initialiser<'a, P: Phrases<'a>>(
    alloc: Global,
    phrases: &P,
    state: &mut State<'a>,
    word: &'a Word,
    place: u32,
    q: QType,
    init: &'a Init,
) -> Result<Made, CheckFault>
    requires { P.can_check phrases.now }
    ensures { Leads view_local_made (spec.local_initialiser (is_by_bytes (type_of (view_qtype q)) (view_init init.now)) (view_word word.now) place (view_qtype q) (view_init init.now)) (view_state state.old) result (view_state state.new) }
{
    if is_by_bytes(&q.ty, init) {
        bytes_rule(alloc, phrases, state, word, place, q, init)
    } else {
        single_rule(alloc, phrases, state, word, place, q, init)
    }
}

/// A local without its initialiser. The answer is its place among the function's locals.
fn local_begun<'a>(
    alloc: Global,
    state: &mut State<'a>,
    word: &'a Word,
    specified: &Specified,
    q: &QType,
) -> Result<u32, AllocError>
    ensures number { IfOk result (λ k. k ≡ states.next_local (view_state state.old)) }
    ensures state { IfOk result (λ k. view_state state.new ≡ part.local_begun (view_word word.now) (view_specified specified.now) k (view_qtype q.now) (view_state state.old)) }
{
    let place = state.next_local()?;
    let local = local_of(alloc, word, q)?;
    state.add_local(local)?;
    let register = is_register(specified.storage);
    let entity = Entity::LocalObject(place, copy_qtype(alloc, q)?, register);
    state.enter(&word.text, entity)?;
    Ok(place)
}

/// A local has the type that its initialiser gave.
fn local_filled(
    alloc: Global,
    state: &mut State<'_>,
    word: &Word,
    specified: &Specified,
    place: u32,
    local: u32,
    ty: QType,
) -> Result<(), AllocError>
    ensures { OnOk result (view_state state.new ≡ part.local_filled (view_word word.now) (view_specified specified.now) place local (view_qtype ty) (view_state state.old)) }
{
    let made = local_of(alloc, word, &ty)?;
    state.put_local(local, made);
    let register = is_register(specified.storage);
    state.put_entity(place, Entity::LocalObject(local, ty, register));
    Ok(())
}

/// The initialiser of a local, behind its declaration.
fn local_rest<'a, P: Phrases<'a>>(
    alloc: Global,
    phrases: &P,
    state: &mut State<'a>,
    word: &'a Word,
    specified: &Specified,
    local: u32,
    q: QType,
    init: &'a Init,
) -> Result<Vec<Initialiser>, CheckFault>
    requires { P.can_check phrases.now }
    ensures { Leads view_made (part.local_rest (view_word word.now) (view_specified specified.now) local (view_qtype q) (view_init init.now)) (view_state state.old) result (view_state state.new) }
{
    let place = place_here(state, &word.text);
    let made = local_initialiser(alloc, phrases, state, word, local, q, init)?;
    local_filled(alloc, state, word, specified, place, local, made.ty)?;
    Ok(made.initialisers)
}

/// A local of automatic storage duration.
pub fn local_rule<'a, P: Phrases<'a>>(
    alloc: Global,
    phrases: &P,
    state: &mut State<'a>,
    word: &'a Word,
    specified: &Specified,
    q: QType,
    initializer: &'a Option<Initializer>,
) -> Result<Vec<Initialiser>, CheckFault>
    requires { P.can_check phrases.now }
    ensures { Leads view_made (spec.local_rule (view_word word.now) (view_specified specified.now) (view_qtype q) (view_initializer initializer.now)) (view_state state.old) result (view_state state.new) }
{
    let local = local_begun(alloc, state, word, specified, &q)?;
    match initializer {
        Some(i) => local_rest(alloc, phrases, state, word, specified, local, q, &i.init),
        None => Ok(Vec::new(alloc)),
    }
}
