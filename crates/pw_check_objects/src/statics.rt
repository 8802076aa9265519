//! Static locals: each is an object of the module without a name of its own.

ghost use Rattle.std.specs.Prelude.{◌≡◌, [], map, IfOk, OnOk};
ghost use Rattle.pw_check_state.specs.EntityViews.{view_hidden};
ghost use Rattle.pw_check_state.specs.Follows.{Leads};
ghost use Rattle.pw_check_state.specs.StateViews.{view_state};
ghost use Rattle.pw_check_objects.specs.Parts as part;
ghost use Rattle.pw_check_objects.specs.Views.{view_made};
ghost use Rattle.pw_check_init_parts.specs.FilledViews.{view_context};
ghost use Rattle.pw_check_init.specs.Views.{view_initialised};
ghost use Rattle.pw_check_rules.specs.Declarations as spec;
ghost use Rattle.pw_check_rules.specs.States as states;
ghost use Rattle.pw_tree.specs.Views.{view_init, view_initializer, view_word};
ghost use Rattle.pw_typed.specs.Views.{view_placed};
ghost use Rattle.pw_types.specs.Views.{view_qtype};

use pw_check_decl_names::completed_rule;
use pw_check_init::{Initialised, object_rule};
use pw_check_init_parts::Context;
use pw_check_state::{Entity, HiddenObject, Phrases, State};
use pw_check_types::{copy_qtype, is_const_object};
use pw_check_walk::CheckFault;
use pw_tree::{Init, Initializer, Word};
use pw_typed::{Initialiser, TItem};
use pw_types::QType;
use std::alloc::{AllocError, Global};

/// The place of what a name is declared as in the scope that is read, 0 where it is not.
pub(crate) fn place_here(state: &State<'_>, name: &[u8]) -> u32
    ensures { result ≡ spec.place_here (view_state state.now) name.now }
{
    match state.entry_here(name) {
        Some(entry) => entry.place,
        None => 0,
    }
}

/// The initialiser of an object, whose type it may complete: a limit on that type counts at the object's name.
pub(crate) fn object_completed<'a, P: Phrases<'a>>(
    alloc: Global,
    phrases: &P,
    state: &mut State<'a>,
    word: &Word,
    cx: &Context,
    q: QType,
    init: &'a Init,
) -> Result<Initialised, CheckFault>
    requires { P.can_check phrases.now }
    ensures { Leads view_initialised (part.object_completed (view_word word.now) (view_context cx.now) (view_qtype q) (view_init init.now)) (view_state state.old) result (view_state state.new) }
{
    let made = object_rule(alloc, phrases, state, cx, q, init)?;
    completed_rule(alloc, state, word, &made.ty)?;
    Ok(made)
}

/// A hidden object of this type, whose bytes are not known yet.
pub(crate) fn hidden_begun(
    alloc: Global,
    q: &QType,
    writable: bool,
) -> Result<HiddenObject, AllocError>
    ensures { IfOk result (λ h. view_hidden h ≡ spec.hidden_of (view_qtype q.now) [] writable) }
{
    Ok(HiddenObject {
        ty: copy_qtype(alloc, q)?,
        writable,
        items: Vec::new(alloc),
    })
}

/// A hidden object of this type with its bytes.
pub(crate) fn hidden_filled(
    alloc: Global,
    q: &QType,
    items: Vec<(u32, TItem)>,
    writable: bool,
) -> Result<HiddenObject, AllocError>
    ensures { IfOk result (λ h. view_hidden h ≡ spec.hidden_of (view_qtype q.now) (map view_placed items.items) writable) }
{
    Ok(HiddenObject {
        ty: copy_qtype(alloc, q)?,
        writable,
        items,
    })
}

/// A static local without its initialiser. The answer is its number among the hidden objects.
fn static_begun<'a>(
    alloc: Global,
    state: &mut State<'a>,
    word: &'a Word,
    q: &QType,
) -> Result<u32, AllocError>
    ensures number { IfOk result (λ k. k ≡ states.next_hidden (view_state state.old)) }
    ensures state { IfOk result (λ k. view_state state.new ≡ part.static_begun (view_word word.now) k (view_qtype q.now) (view_state state.old)) }
{
    let number = state.next_hidden()?;
    let object = hidden_begun(alloc, q, !is_const_object(q))?;
    state.add_hidden(object)?;
    let entity = Entity::StaticObject(number, copy_qtype(alloc, q)?);
    state.enter(&word.text, entity)?;
    Ok(number)
}

/// A static local has what its initialiser gave.
fn static_filled(
    alloc: Global,
    state: &mut State<'_>,
    place: u32,
    number: u32,
    writable: bool,
    made: Initialised,
) -> Result<(), AllocError>
    ensures { OnOk result (view_state state.new ≡ part.static_filled place number writable (view_initialised made) (view_state state.old)) }
{
    let Initialised { ty, filled } = made;
    let object = hidden_filled(alloc, &ty, filled.items, writable)?;
    state.put_hidden(number, object);
    state.put_entity(place, Entity::StaticObject(number, ty));
    Ok(())
}

/// The initialiser of a static local.
fn static_rest<'a, P: Phrases<'a>>(
    alloc: Global,
    phrases: &P,
    state: &mut State<'a>,
    word: &Word,
    number: u32,
    q: QType,
    init: &'a Init,
) -> Result<Vec<Initialiser>, CheckFault>
    requires { P.can_check phrases.now }
    ensures { Leads view_made (part.static_rest (view_word word.now) number (view_qtype q) (view_init init.now)) (view_state state.old) result (view_state state.new) }
{
    let place = place_here(state, &word.text);
    let writable = !is_const_object(&q);
    let cx = Context {
        token: word.token,
        constant: true,
        hidden: number,
    };
    let made = object_completed(alloc, phrases, state, word, &cx, q, init)?;
    static_filled(alloc, state, place, number, writable, made)?;
    Ok(Vec::new(alloc))
}

/// Checks a local that is declared `static` (C90 6.1.2.4, 6.5.7): it becomes an object of the module, with its
/// initial bytes, and nothing is left to be done where the block begins, so that no initialiser is answered.
pub fn static_rule<'a, P: Phrases<'a>>(
    alloc: Global,
    phrases: &P,
    state: &mut State<'a>,
    word: &'a Word,
    q: QType,
    initializer: &'a Option<Initializer>,
) -> Result<Vec<Initialiser>, CheckFault>
    requires { P.can_check phrases.now }
    ensures { Leads view_made (spec.static_rule (view_word word.now) (view_qtype q) (view_initializer initializer.now)) (view_state state.old) result (view_state state.new) }
{
    let number = static_begun(alloc, state, word, &q)?;
    match initializer {
        Some(i) => static_rest(alloc, phrases, state, word, number, q, &i.init),
        None => Ok(Vec::new(alloc)),
    }
}
