//! The initialiser of an object (C90 6.5.7).

ghost use Rattle.std.specs.Prelude.{◌≡◌, [], ◌∷◌, IfOk};
ghost use Rattle.pw_check_state.specs.Follows.{Follows, Leads};
ghost use Rattle.pw_check_state.specs.StateViews.{view_state};
ghost use Rattle.pw_check_init_parts.specs.FilledViews.{view_context};
ghost use Rattle.pw_check_init.specs.Views.{view_initialised, view_listed};
ghost use Rattle.pw_check_rules.specs.Initialisers as spec;
ghost use Rattle.pw_tree.specs.Trees as tree;
ghost use Rattle.pw_tree.specs.Views.{view_expr, view_init, view_inits, view_words};
ghost use Rattle.pw_types.specs.Views.{view_qtype, view_type};

use crate::lists::Listed;
use crate::readings::inits_rule;
use pw_check_init_parts::{
    Context, Filled, Target, braced_string, bytes_filled, elements_given, filling_string,
    string_form, value_filled, within_braces,
};
use pw_check_leaves::string_bytes;
use pw_check_state::{Phrases, State, whole_rule};
use pw_check_types::{boxed_copy, copy_qtype, is_scalar};
use pw_check_walk::CheckFault;
use pw_tree::{Expr, Init, Word, statements_show_their_lists};
use pw_types::{CType, QType};
use pw_value::words::word_of_u64;
use std::alloc::{AllocError, Global};

/// An object's type, whose length its initialiser may give, and what its initialiser gives.
#[derive(Drop)]
pub struct Initialised {
    pub ty: QType,
    pub filled: Filled,
}

/// The type with the length that was given. A length that 32 bits cannot count answers want of memory.
#[tactic(auto, unfolding(pw_types::specs::Views::view_type), using(pw_types::proofs::ViewLemmas::signature_view))]
fn with_length(alloc: Global, count: u64, q: QType) -> Result<QType, AllocError>
    ensures { IfOk result (λ made. view_qtype made ≡ spec.with_length count (view_qtype q)) }
{
    let element = match &q.ty {
        CType::Array(element, None) => boxed_copy(alloc, element)?,
        CType::Array(_, Some(_))
        | CType::Void
        | CType::Int(_)
        | CType::Pointer(_)
        | CType::Function(_)
        | CType::Record(_) => return Ok(q),
    };
    let length = word_of_u64(count)?;
    Ok(QType {
        ty: CType::Array(element, Some(length)),
        constant: q.constant,
        volatile: q.volatile,
    })
}

/// By a string literal, for an array of characters.
fn object_string(
    alloc: Global,
    state: &State<'_>,
    cx: &Context,
    q: QType,
    words: &[Word],
) -> Result<Initialised, CheckFault>
    ensures { Follows view_initialised (spec.object_string (view_context cx.now) (view_qtype q) (view_words words.now)) (view_state state.now) result }
{
    let bytes = string_bytes(alloc, state, words)?;
    let count = bytes.len() as u64;
    let target = Target { ty: q, offset: 0 };
    let nothing = Filled::nothing(alloc);
    let filled = bytes_filled(alloc, state, cx, words, bytes, &target, nothing)?;
    let ty = with_length(alloc, count, target.ty)?;
    Ok(Initialised { ty, filled })
}

/// By one expression.
fn object_value<'a, P: Phrases<'a>>(
    alloc: Global,
    phrases: &P,
    state: &mut State<'a>,
    cx: &Context,
    q: QType,
    expr: &'a Expr,
) -> Result<Initialised, CheckFault>
    requires { P.can_check phrases.now }
    ensures { Leads view_initialised (spec.object_value (view_context cx.now) (view_qtype q) (view_expr expr.now)) (view_state state.old) result (view_state state.new) }
{
    let e = whole_rule(alloc, phrases, state, expr)?;
    let target = Target { ty: q, offset: 0 };
    let nothing = Filled::nothing(alloc);
    let filled = value_filled(alloc, state, cx, expr.first_token(), &target, e, nothing)?;
    Ok(Initialised {
        ty: target.ty,
        filled,
    })
}

/// The cursor of a list in braces for an object, and nothing given yet.
fn list_begun(alloc: Global, q: &QType) -> Result<Listed, AllocError>
    ensures { IfOk result (λ begun. view_listed begun ≡ (spec.frame_of (spec.target_at (view_qtype q.now) 0) ∷ [], spec.nothing_filled)) }
{
    let target = Target {
        ty: copy_qtype(alloc, q)?,
        offset: 0,
    };
    Ok(Listed {
        cursor: within_braces(alloc, target)?,
        filled: Filled::nothing(alloc),
    })
}

/// By a list in braces.
fn object_list<'a, P: Phrases<'a>>(
    alloc: Global,
    phrases: &P,
    state: &mut State<'a>,
    cx: &Context,
    q: QType,
    items: &'a [Init],
) -> Result<Initialised, CheckFault>
    requires { P.can_check phrases.now }
    ensures { Leads view_initialised (spec.object_list (view_context cx.now) (view_qtype q) (view_inits items.now)) (view_state state.old) result (view_state state.new) }
{
    let begun = list_begun(alloc, &q)?;
    let listed = inits_rule(alloc, phrases, state, cx, begun, items)?;
    let count = elements_given(&listed.cursor)?;
    let ty = with_length(alloc, count, q)?;
    Ok(Initialised {
        ty,
        filled: listed.filled,
    })
}

/// By an expression, or by a string literal that stands alone.
fn object_expression<'a, P: Phrases<'a>>(
    alloc: Global,
    phrases: &P,
    state: &mut State<'a>,
    cx: &Context,
    q: QType,
    expr: &'a Expr,
) -> Result<Initialised, CheckFault>
    requires { P.can_check phrases.now }
    ensures { Leads view_initialised (spec.object_rule (view_context cx.now) (view_qtype q) (tree.Value (view_expr expr.now))) (view_state state.old) result (view_state state.new) }
{
    let words = filling_string(&q.ty, string_form(expr));
    match words {
        Some(words) => object_string(alloc, state, cx, q, words),
        None => object_value(alloc, phrases, state, cx, q, expr),
    }
}

/// By a list in braces, or by one string literal in braces.
fn object_braces<'a, P: Phrases<'a>>(
    alloc: Global,
    phrases: &P,
    state: &mut State<'a>,
    cx: &Context,
    q: QType,
    items: &'a [Init],
) -> Result<Initialised, CheckFault>
    requires { P.can_check phrases.now }
    ensures { (token trailing : _) → Leads view_initialised (spec.object_rule (view_context cx.now) (view_qtype q) (tree.Braces token (view_inits items.now) trailing)) (view_state state.old) result (view_state state.new) }
{
    let words = filling_string(&q.ty, braced_string(items));
    match words {
        Some(words) => object_string(alloc, state, cx, q, words),
        None => object_list(alloc, phrases, state, cx, q, items),
    }
}

/// The initialiser of an object of this type: what it gives, and the type, whose length it may give.
pub fn object_rule<'a, P: Phrases<'a>>(
    alloc: Global,
    phrases: &P,
    state: &mut State<'a>,
    cx: &Context,
    q: QType,
    init: &'a Init,
) -> Result<Initialised, CheckFault>
    requires { P.can_check phrases.now }
    ensures { Leads view_initialised (spec.object_rule (view_context cx.now) (view_qtype q) (view_init init.now)) (view_state state.old) result (view_state state.new) }
{
    match init {
        Init::Value(e) => object_expression(alloc, phrases, state, cx, q, e),
        Init::List { items, .. } => {
            statements_show_their_lists();
            object_braces(alloc, phrases, state, cx, q, items)
        }
    }
}

/// Whether a local is initialised by the bytes of a hidden object: by a list for an object with parts, or by a string
/// for an array of characters.
#[tactic(auto, unfolding(pw_tree::specs::Views::view_init))]
pub fn is_by_bytes(ty: &CType, init: &Init) -> bool
    ensures { result ≡ spec.is_by_bytes (view_type ty.now) (view_init init.now) }
{
    match init {
        Init::Value(e) => filling_string(ty, string_form(e)).is_some(),
        Init::List { .. } => {
            statements_show_their_lists();
            !is_scalar(ty)
        }
    }
}
