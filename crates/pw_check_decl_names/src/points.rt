//! What a declaration asks of its name and its type.

ghost use Rattle.std.specs.Prelude.{◌≡◌};
ghost use Rattle.pw_check_state.specs.Follows.{Follows};
ghost use Rattle.pw_check_state.specs.PhraseViews.{view_specified, view_spot};
ghost use Rattle.pw_check_state.specs.StateViews.{view_state};
ghost use Rattle.pw_check_decl_names.specs.Views.{view_sort};
ghost use Rattle.pw_check_walk.specs.Found.{found, found_behind};
ghost use Rattle.pw_check_linkage.specs.Views.{view_asking};
ghost use Rattle.pw_check_rules.specs.Declarations as spec;
ghost use Rattle.pw_check_rules.specs.Linkage as linkage;
ghost use Rattle.pw_tree.specs.Views.{view_word};
ghost use Rattle.pw_types.specs.Views.{view_qtype};

use crate::sorts::{Sort, asking_of, is_extern, is_static};
use pw_check_limits::{completed, name_within, type_within};
use pw_check_linkage::{Asking, fitting, fresh_name, is_internal_by, linkage_point, undefined_yet};
use pw_check_state::{Finding, Specified, Spot, State};
use pw_check_types::{is_open_array, is_void};
use pw_check_walk::{CheckFault, CheckKind};
use pw_tree::Word;
use pw_types::{QType, Types};
use std::alloc::Global;

/// An object of no linkage is complete, or an array that gets its length from its initialiser.
fn object_point(types: &Types, spot: &Spot, initialised: bool, q: &QType) -> Finding
    ensures { result.least ≡ found (spec.object_point types.now (view_spot spot.now) initialised (view_qtype q.now)) }
{
    if initialised && is_open_array(&q.ty) {
        Finding::none()
    } else {
        completed(types, spot, CheckKind::Typing, &q.ty)
    }
}

/// An object with linkage may be completed later, unless it is void, or static where it is defined tentatively (C90
/// 6.7.2).
fn global_point(
    types: &Types,
    spot: &Spot,
    initialised: bool,
    specified: &Specified,
    q: &QType,
) -> Finding
    ensures { result.least ≡ found (spec.global_point types.now (view_spot spot.now) initialised (view_specified specified.now) (view_qtype q.now)) }
{
    if initialised || is_static(specified.storage) {
        object_point(types, spot, initialised, q)
    } else {
        Finding::none().needs(CheckKind::Typing, spot.token, !is_void(&q.ty))
    }
}

/// A definition is the first of its name.
fn definition_point(finding: Finding, state: &State<'_>, word: &Word, initialised: bool) -> Finding
    ensures { result.least ≡ found_behind finding.least (spec.definition_point (view_state state.now) (view_word word.now) initialised) }
{
    if initialised {
        undefined_yet(finding, state, &word.text, word.token)
    } else {
        finding
    }
}

/// A function in a block has no storage class but `extern`.
fn function_point(
    finding: Finding,
    state: &State<'_>,
    specified: &Specified,
    token: usize,
    initialised: bool,
) -> Finding
    ensures { result.least ≡ found_behind finding.least (spec.function_point (view_state state.now) (view_specified specified.now) token initialised) }
{
    let lawful = state.is_file_scope()
        || specified.storage.is_none()
        || is_extern(specified.storage);
    finding
        .needs(CheckKind::Typing, token, lawful)
        .needs(CheckKind::Typing, token, !initialised)
}

/// What a declaration asks of the linkage of its name.
fn linkage_asked(state: &State<'_>, word: &Word, asking: Asking, q: &QType) -> Finding
    ensures { result.least ≡ found (linkage.linkage_point (view_state state.now) word.now.text.items word.now.token (linkage.is_internal_by (view_state state.now) word.now.text.items (view_asking asking)) (view_qtype q.now)) }
{
    let internal = is_internal_by(state, &word.text, asking);
    linkage_point(state, &word.text, word.token, internal, q)
}

/// What a function's declaration asks.
fn function_asked(
    state: &State<'_>,
    word: &Word,
    initialised: bool,
    specified: &Specified,
    q: &QType,
) -> Finding
    ensures { (spot : _) → result.least ≡ found (spec.sort_point (view_state state.now) spec.AFunction spot (view_word word.now) initialised (view_specified specified.now) (view_qtype q.now)) }
{
    let linked = linkage_asked(state, word, asking_of(Sort::AFunction, specified), q);
    function_point(linked, state, specified, word.token, initialised)
}

/// What the declaration of an object at file scope asks.
fn global_asked(
    state: &State<'_>,
    spot: &Spot,
    word: &Word,
    initialised: bool,
    specified: &Specified,
    q: &QType,
) -> Finding
    ensures { result.least ≡ found (spec.sort_point (view_state state.now) spec.AGlobal (view_spot spot.now) (view_word word.now) initialised (view_specified specified.now) (view_qtype q.now)) }
{
    let linked = linkage_asked(state, word, asking_of(Sort::AGlobal, specified), q);
    let defined = definition_point(linked, state, word, initialised);
    defined.and(global_point(state.records(), spot, initialised, specified, q))
}

/// What a declaration of an object in a block that says `extern` asks.
fn extern_asked(state: &State<'_>, word: &Word, initialised: bool, q: &QType) -> Finding
    ensures { (spot b : _) → result.least ≡ found (spec.sort_point (view_state state.now) spec.AnExtern spot (view_word word.now) initialised b (view_qtype q.now)) }
{
    linkage_asked(state, word, Asking::AsBefore, q)
        .needs(CheckKind::Typing, word.token, !initialised)
        .needs(CheckKind::Typing, word.token, !is_void(&q.ty))
}

/// What the declaration of an object without linkage asks.
fn object_asked(
    state: &State<'_>,
    spot: &Spot,
    word: &Word,
    initialised: bool,
    q: &QType,
) -> Finding
    ensures { (b : _) → result.least ≡ found (spec.sort_point (view_state state.now) spec.ALocal (view_spot spot.now) (view_word word.now) initialised b (view_qtype q.now)) }
{
    let fresh = fresh_name(Finding::none(), state, &word.text, word.token);
    fresh.and(object_point(state.records(), spot, initialised, q))
}

/// What a declaration asks of its name and its type, but for their limits.
fn sort_point(
    state: &State<'_>,
    sort: Sort,
    spot: &Spot,
    word: &Word,
    initialised: bool,
    specified: &Specified,
    q: &QType,
) -> Finding
    ensures { result.least ≡ found (spec.sort_point (view_state state.now) (view_sort sort) (view_spot spot.now) (view_word word.now) initialised (view_specified specified.now) (view_qtype q.now)) }
{
    match sort {
        Sort::ATypedef => fresh_name(Finding::none(), state, &word.text, word.token).needs(
            CheckKind::Typing,
            word.token,
            !initialised,
        ),
        Sort::AFunction => function_asked(state, word, initialised, specified, q),
        Sort::AGlobal => global_asked(state, spot, word, initialised, specified, q),
        Sort::AnExtern => extern_asked(state, word, initialised, q),
        Sort::AStatic | Sort::ALocal => object_asked(state, spot, word, initialised, q),
    }
}

/// What a declaration asks of its name and its type, at one point.
pub fn name_rule(
    alloc: Global,
    state: &State<'_>,
    sort: Sort,
    spot: &Spot,
    word: &Word,
    initialised: bool,
    specified: &Specified,
    q: &QType,
) -> Result<(), CheckFault>
    ensures { Follows (λ u. u) (spec.name_rule (view_sort sort) (view_spot spot.now) (view_word word.now) initialised (view_specified specified.now) (view_qtype q.now)) (view_state state.now) result }
{
    let asked = sort_point(state, sort, spot, word, initialised, specified, q);
    let named = name_within(asked, word.token, &word.text);
    named
        .and(type_within(alloc, state.records(), word.token, q)?)
        .end()
}

/// A limit on the type that an initialiser completes.
pub fn completed_rule(
    alloc: Global,
    state: &State<'_>,
    word: &Word,
    q: &QType,
) -> Result<(), CheckFault>
    ensures { Follows (λ u. u) (spec.completed_rule (view_word word.now) (view_qtype q.now)) (view_state state.now) result }
{
    type_within(alloc, state.records(), word.token, q)?.end()
}

/// The type that an initialiser gives an object with linkage fits what else the name is declared with, and keeps its
/// limits.
pub fn fitting_rule(
    alloc: Global,
    state: &State<'_>,
    word: &Word,
    place: u32,
    q: &QType,
) -> Result<(), CheckFault>
    ensures { Follows (λ u. u) (spec.fitting_rule (view_word word.now) place (view_qtype q.now)) (view_state state.now) result }
{
    let fits = fitting(state, place, word.token, q);
    fits.and(type_within(alloc, state.records(), word.token, q)?)
        .end()
}
