//! Objects with linkage that are declared at file scope.

ghost use Rattle.std.specs.Prelude.{◌≡◌, if◌then◌else◌, IfOk, OnOk};
ghost use Rattle.pw_check_state.specs.Follows.{Leads};
ghost use Rattle.pw_check_state.specs.PhraseViews.{view_specified};
ghost use Rattle.pw_check_state.specs.StateViews.{view_state};
ghost use Rattle.pw_check_objects.specs.Parts as part;
ghost use Rattle.pw_check_objects.specs.Views.{view_made};
ghost use Rattle.pw_check_init_parts.specs.FilledViews.{view_context};
ghost use Rattle.pw_check_init.specs.Views.{view_initialised};
ghost use Rattle.pw_check_linkage.specs.Views.{view_asking};
ghost use Rattle.pw_check_rules.specs.Declarations as spec;
ghost use Rattle.pw_check_rules.specs.Linkage as linkage;
ghost use Rattle.pw_tree.specs.Views.{view_init, view_initializer, view_word};
ghost use Rattle.pw_types.specs.Views.{view_qtype};

use pw_check_decl_names::{Sort, asking_of, fitting_rule, is_tentative};
use pw_check_init::{Initialised, object_rule};
use pw_check_init_parts::Context;
use pw_check_linkage::{
    Asking, declare_linked, define_object, define_tentatively, initialise_linked, note_here,
};
use pw_check_state::{Entity, Phrases, Specified, State};
use pw_check_types::copy_qtype;
use pw_check_walk::CheckFault;
use pw_tree::{Init, Initializer, Word};
use pw_typed::Initialiser;
use pw_types::QType;
use std::alloc::{AllocError, Global};

/// A declaration that gives a name linkage, and no more.
pub fn linked_only<'a>(
    alloc: Global,
    state: &mut State<'a>,
    word: &'a Word,
    specified: &Specified,
    asking: Asking,
    q: QType,
) -> Result<Vec<Initialiser>, CheckFault>
    ensures { Leads view_made (part.linked_only (view_word word.now) (view_specified specified.now) (view_asking asking) (view_qtype q)) (view_state state.old) result (view_state state.new) }
{
    let _place = declare_linked(alloc, state, word, specified.tag, asking, q)?;
    Ok(Vec::new(alloc))
}

/// An object at file scope without an initialiser may be defined tentatively (C90 6.7.2).
fn tentative(state: &mut State<'_>, specified: &Specified, place: u32) -> Result<(), AllocError>
    ensures { OnOk result (view_state state.new ≡ (if spec.is_tentative (view_specified specified.now) then linkage.define_tentatively place (view_state state.old) else view_state state.old)) }
{
    if is_tentative(specified) {
        define_tentatively(state, place)?;
    }
    Ok(())
}

/// An object with linkage has what its initialiser gave.
fn global_filled<'a>(
    alloc: Global,
    state: &mut State<'a>,
    word: &'a Word,
    place: u32,
    made: Initialised,
) -> Result<(), AllocError>
    ensures { OnOk result (view_state state.new ≡ part.global_filled (view_word word.now) place (view_initialised made) (view_state state.old)) }
{
    let Initialised { ty, filled } = made;
    initialise_linked(alloc, state, place, &ty, filled.items)?;
    note_here(alloc, state, &word.text, place, ty)?;
    Ok(())
}

/// The initialiser of an object with linkage, whose type it may complete: the type has to fit the name's other
/// declarations, and a limit on it counts at the object's name.
fn object_fitted<'a, P: Phrases<'a>>(
    alloc: Global,
    phrases: &P,
    state: &mut State<'a>,
    word: &Word,
    place: u32,
    cx: &Context,
    q: QType,
    init: &'a Init,
) -> Result<Initialised, CheckFault>
    requires { P.can_check phrases.now }
    ensures { Leads view_initialised (part.object_fitted (view_word word.now) place (view_context cx.now) (view_qtype q) (view_init init.now)) (view_state state.old) result (view_state state.new) }
{
    let made = object_rule(alloc, phrases, state, cx, q, init)?;
    fitting_rule(alloc, state, word, place, &made.ty)?;
    Ok(made)
}

/// The type that a name has by its declarations in the scope that is read (C90 6.1.2.6).
fn named_type(alloc: Global, state: &State<'_>, word: &Word, q: QType) -> Result<QType, AllocError>
    ensures { IfOk result (λ ty. view_qtype ty ≡ linkage.named_type (view_state state.now) (view_word word.now).text (view_qtype q)) }
{
    match state.entity_here(&word.text) {
        Some(Entity::Linked(_, ty)) => copy_qtype(alloc, ty),
        _ => Ok(q),
    }
}

/// The definition of an object with linkage, by its initialiser.
fn global_rest<'a, P: Phrases<'a>>(
    alloc: Global,
    phrases: &P,
    state: &mut State<'a>,
    word: &'a Word,
    place: u32,
    q: QType,
    init: &'a Init,
) -> Result<Vec<Initialiser>, CheckFault>
    requires { P.can_check phrases.now }
    ensures { Leads view_made (part.global_rest (view_word word.now) place (view_qtype q) (view_init init.now)) (view_state state.old) result (view_state state.new) }
{
    define_object(state, place)?;
    let cx = Context {
        token: word.token,
        constant: true,
        hidden: 0,
    };
    let ty = named_type(alloc, state, word, q)?;
    let made = object_fitted(alloc, phrases, state, word, place, &cx, ty, init)?;
    global_filled(alloc, state, word, place, made)?;
    Ok(Vec::new(alloc))
}

/// An object with linkage, or the declaration of one.
pub fn global_rule<'a, P: Phrases<'a>>(
    alloc: Global,
    phrases: &P,
    state: &mut State<'a>,
    word: &'a Word,
    specified: &Specified,
    q: QType,
    initializer: &'a Option<Initializer>,
) -> Result<Vec<Initialiser>, CheckFault>
    requires { P.can_check phrases.now }
    ensures { (spot : _) → Leads view_made (spec.global_rule (view_word word.now) (view_specified specified.now) spot (view_qtype q) (view_initializer initializer.now)) (view_state state.old) result (view_state state.new) }
{
    let asking = asking_of(Sort::AGlobal, specified);
    let ty = copy_qtype(alloc, &q)?;
    let place = declare_linked(alloc, state, word, specified.tag, asking, ty)?;
    match initializer {
        Some(i) => global_rest(alloc, phrases, state, word, place, q, &i.init),
        None => {
            tentative(state, specified, place)?;
            Ok(Vec::new(alloc))
        }
    }
}
