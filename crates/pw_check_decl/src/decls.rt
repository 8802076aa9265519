//! Declarations (C90 6.5).

ghost use Rattle.std.specs.Prelude.{◌≡◌, ◌++◌, is_some, IfOk, Option};
ghost use Rattle.pw_check_state.specs.Follows.{Follows, Leads};
ghost use Rattle.pw_check_state.specs.PhraseViews.{view_derivations, view_specified, view_spot};
ghost use Rattle.pw_check_state.specs.StateViews.{view_state};
ghost use Rattle.pw_check_decl.specs.Parts as part;
ghost use Rattle.pw_check_decl.specs.Views.{view_made};
ghost use Rattle.pw_check_decl_names.specs.Views.{view_sort};
ghost use Rattle.pw_check_rules.specs.Declarations as spec;
ghost use Rattle.pw_check_rules.specs.Derivations as building;
ghost use Rattle.pw_tree.specs.Views.{view_decl, view_decls, view_init_declarator, view_init_declarators, view_initializer, view_specifiers, view_word};
ghost use Rattle.pw_tree.specs.Trees as trees;
ghost use Rattle.pw_types.specs.Views.{view_qtype};

use crate::bare::{bare_rule, storage_rule};
use pw_check_decl_names::{Sort, asking_of, name_rule, sort_of};
use pw_check_limits::{built, spot_of};
use pw_check_linkage::Asking;
use pw_check_objects::{global_rule, linked_only, local_rule, static_rule};
use pw_check_state::{
    Declared, Derivation, Entity, Phrases, Specified, Spot, State, first_of_list,
};
use pw_check_types::copy_qtype;
use pw_check_walk::CheckFault;
use pw_tree::{Decl, InitDeclarator, Initializer, Specifier, Word};
use pw_typed::Initialiser;
use pw_types::QType;
use std::alloc::{AllocError, Global};

/// Initialisers behind others.
#[tactic(auto, using(pw_check_state::proofs::PlaceLemmas::map_push, crate::proofs::DeclLemmas::initialisers_append))]
fn joined(made: Vec<Initialiser>, more: Vec<Initialiser>) -> Result<Vec<Initialiser>, AllocError>
    ensures { IfOk result (λ all. view_made all ≡ view_made made ++ view_made more) }
{
    let mut made = made;
    let mut more = more;
    made.append(&mut more)?;
    Ok(made)
}

/// A typedef name, and no more.
#[tactic(auto, unfolding(pw_check_walk::specs::Walks::bind, pw_check_walk::specs::Walks::outcome, pw_check_rules::specs::Declarations::declare_rule))]
fn typedef_only<'a>(
    alloc: Global,
    state: &mut State<'a>,
    word: &'a Word,
    q: QType,
) -> Result<Vec<Initialiser>, CheckFault>
    ensures { (b spot i : _) → Leads view_made (spec.declare_rule spec.ATypedef (view_word word.now) b spot (view_qtype q) i) (view_state state.old) result (view_state state.new) }
{
    state.enter(&word.text, Entity::TypeName(q))?;
    Ok(Vec::new(alloc))
}

/// What a declaration makes of its name, by the sort of what it declares.
#[tactic(auto, unfolding(pw_check_rules::specs::Declarations::declare_rule, pw_check_objects::specs::Parts::linked_only))]
fn declare_rule<'a, P: Phrases<'a>>(
    alloc: Global,
    phrases: &P,
    state: &mut State<'a>,
    sort: Sort,
    word: &'a Word,
    specified: &Specified,
    q: QType,
    initializer: &'a Option<Initializer>,
) -> Result<Vec<Initialiser>, CheckFault>
    requires { P.can_check phrases.now }
    ensures { (spot : _) → Leads view_made (spec.declare_rule (view_sort sort) (view_word word.now) (view_specified specified.now) spot (view_qtype q) (view_initializer initializer.now)) (view_state state.old) result (view_state state.new) }
{
    match sort {
        Sort::ATypedef => typedef_only(alloc, state, word, q),
        Sort::AFunction => {
            let asking = asking_of(sort, specified);
            linked_only(alloc, state, word, specified, asking, q)
        }
        Sort::AGlobal => global_rule(alloc, phrases, state, word, specified, q, initializer),
        Sort::AnExtern => linked_only(alloc, state, word, specified, Asking::AsBefore, q),
        Sort::AStatic => static_rule(alloc, phrases, state, word, q, initializer),
        Sort::ALocal => local_rule(alloc, phrases, state, word, specified, q, initializer),
    }
}

/// A declared name with its type, and its initialiser.
fn named_rule<'a, P: Phrases<'a>>(
    alloc: Global,
    phrases: &P,
    state: &mut State<'a>,
    specified: &Specified,
    spot: &Spot,
    word: &'a Word,
    q: QType,
    initializer: &'a Option<Initializer>,
) -> Result<Vec<Initialiser>, CheckFault>
    requires { P.can_check phrases.now }
    ensures { Leads view_made (part.named_rule (view_specified specified.now) (view_spot spot.now) (view_word word.now) (view_qtype q) (view_initializer initializer.now)) (view_state state.old) result (view_state state.new) }
{
    let sort = sort_of(state.is_file_scope(), specified, &q);
    let initialised = initializer.is_some();
    name_rule(alloc, state, sort, spot, word, initialised, specified, &q)?;
    declare_rule(alloc, phrases, state, sort, word, specified, q, initializer)
}

/// What is told of a declarator without a name. It has the name without bytes, which breaks the limit on names, so that
/// nothing is declared. The grammar gives each declarator of a declaration a name.
fn nameless_rule(
    alloc: Global,
    state: &State<'_>,
    specified: &Specified,
    spot: &Spot,
    q: &QType,
    initialised: bool,
) -> Result<Vec<Initialiser>, CheckFault>
    ensures { (i : Option trees.Initializer) → is_some i ≡ initialised → Follows view_made (part.named_rule (view_specified specified.now) (view_spot spot.now) part.nobody (view_qtype q.now) i) (view_state state.now) result }
{
    let text = Vec::new(alloc);
    let nobody = Word { token: 0, text };
    let sort = sort_of(state.is_file_scope(), specified, q);
    name_rule(alloc, state, sort, spot, &nobody, initialised, specified, q)?;
    unreachable!()
}

/// The type that a declarator makes of the type of its specifiers.
fn type_built<'a>(
    alloc: Global,
    state: &State<'a>,
    specified: &Specified,
    spot: &Spot,
    derivations: Vec<Derivation<'a>>,
) -> Result<QType, CheckFault>
    ensures { Follows view_qtype (building.built (view_spot spot.now) (view_derivations derivations.entry.items) (view_qtype specified.now.ty)) (view_state state.now) result }
{
    let base = copy_qtype(alloc, &specified.ty)?;
    built(alloc, state, spot, derivations, base)
}

/// A declarator of a declaration, with its initialiser.
fn init_declarator_rule<'a, P: Phrases<'a>>(
    alloc: Global,
    phrases: &P,
    state: &mut State<'a>,
    specified: &Specified,
    d: &'a InitDeclarator,
) -> Result<Vec<Initialiser>, CheckFault>
    requires { P.can_check phrases.now }
    ensures { Leads view_made (spec.init_declarator_rule (view_specified specified.now) (view_init_declarator d.now)) (view_state state.old) result (view_state state.new) }
{
    let declared = phrases.declarator(alloc, state, &d.declarator)?;
    let Declared {
        name,
        derivations,
        ..
    } = declared;
    let spot = spot_of(name, specified.first, specified.tag);
    let q = type_built(alloc, state, specified, &spot, derivations)?;
    match name {
        Some(word) => named_rule(
            alloc,
            phrases,
            state,
            specified,
            &spot,
            word,
            q,
            &d.initializer,
        ),
        None => {
            let initialised = d.initializer.is_some();
            nameless_rule(alloc, state, specified, &spot, &q, initialised)
        }
    }
}

/// A declarator of a declaration, behind what those before it gave.
fn declarator_behind<'a, P: Phrases<'a>>(
    alloc: Global,
    phrases: &P,
    state: &mut State<'a>,
    specified: &Specified,
    d: &'a InitDeclarator,
    made: Vec<Initialiser>,
) -> Result<Vec<Initialiser>, CheckFault>
    requires { P.can_check phrases.now }
    ensures { Leads view_made (part.declarator_behind (view_specified specified.now) (view_init_declarator d.now) (view_made made)) (view_state state.old) result (view_state state.new) }
{
    let more = init_declarator_rule(alloc, phrases, state, specified, d)?;
    Ok(joined(made, more)?)
}

/// The declarators of a declaration, one after another.
fn init_declarators_rule<'a, P: Phrases<'a>>(
    alloc: Global,
    phrases: &P,
    state: &mut State<'a>,
    specified: &Specified,
    declarators: &'a [InitDeclarator],
) -> Result<Vec<Initialiser>, CheckFault>
    requires { P.can_check phrases.now }
    ensures { Leads view_made (spec.init_declarators_rule (view_specified specified.now) (view_init_declarators declarators.now)) (view_state state.old) result (view_state state.new) }
{
    let mut made = Vec::new(alloc);
    for d in declarators {
        made = declarator_behind(alloc, phrases, state, specified, d, made)?;
    }
    Ok(made)
}

/// The specifiers and the declarators of a declaration.
fn declarators_rule<'a, P: Phrases<'a>>(
    alloc: Global,
    phrases: &P,
    state: &mut State<'a>,
    specifiers: &'a [Specifier],
    declarators: &'a [InitDeclarator],
) -> Result<Vec<Initialiser>, CheckFault>
    requires { P.can_check phrases.now }
    ensures { Leads view_made (spec.declarators_rule (view_specifiers specifiers.now) (view_init_declarators declarators.now)) (view_state state.old) result (view_state state.new) }
{
    if declarators.is_empty() {
        return bare_rule(alloc, phrases, state, specifiers);
    }
    let first = first_of_list(specifiers);
    let specified = phrases.specifiers(alloc, state, specifiers, first)?;
    storage_rule(state, &specified)?;
    init_declarators_rule(alloc, phrases, state, &specified, declarators)
}

/// A declaration, with the initialisers of the locals that it declares.
#[tactic(auto, unfolding(pw_check_rules::specs::Declarations::decl_rule))]
pub fn decl_rule<'a, P: Phrases<'a>>(
    alloc: Global,
    phrases: &P,
    state: &mut State<'a>,
    decl: &'a Decl,
) -> Result<Vec<Initialiser>, CheckFault>
    requires { P.can_check phrases.now }
    ensures { Leads view_made (spec.decl_rule (view_decl decl.now)) (view_state state.old) result (view_state state.new) }
{
    declarators_rule(alloc, phrases, state, &decl.specifiers, &decl.declarators)
}

/// A declaration, behind what those before it gave.
fn decl_behind<'a, P: Phrases<'a>>(
    alloc: Global,
    phrases: &P,
    state: &mut State<'a>,
    decl: &'a Decl,
    made: Vec<Initialiser>,
) -> Result<Vec<Initialiser>, CheckFault>
    requires { P.can_check phrases.now }
    ensures { Leads view_made (part.decl_behind (view_decl decl.now) (view_made made)) (view_state state.old) result (view_state state.new) }
{
    let more = decl_rule(alloc, phrases, state, decl)?;
    Ok(joined(made, more)?)
}

/// The declarations of a block, with the initialisers of its locals.
pub fn decls_rule<'a, P: Phrases<'a>>(
    alloc: Global,
    phrases: &P,
    state: &mut State<'a>,
    decls: &'a [Decl],
) -> Result<Vec<Initialiser>, CheckFault>
    requires { P.can_check phrases.now }
    ensures { Leads view_made (spec.decls_rule (view_decls decls.now)) (view_state state.old) result (view_state state.new) }
{
    let mut made = Vec::new(alloc);
    for decl in decls {
        made = decl_behind(alloc, phrases, state, decl, made)?;
    }
    Ok(made)
}
