//! What initialisers give: an object's first bytes, and the expressions that they are made of.

ghost use Rattle.std.specs.Prelude.{◌≡◌, option_map, IfOk};
ghost use Rattle.pw_check_state.specs.Follows.{Follows};
ghost use Rattle.pw_check_state.specs.StateViews.{view_state};
ghost use Rattle.pw_check_state.specs.Views.{view_node};
ghost use Rattle.pw_check_init_parts.specs.FilledViews.{view_context, view_filled};
ghost use Rattle.pw_check_init_parts.specs.PlaceViews.{view_target};
ghost use Rattle.pw_check_rules.specs.Initialisers as spec;
ghost use Rattle.pw_typed.specs.Views.{view_expr, view_item};

use crate::items::item_of;
use crate::parts::Target;
use pw_check_operands::{cast_to, is_assignable};
use pw_check_state::{State, fault, typing};
use pw_check_types::is_array;
use pw_check_walk::{CheckFault, CheckKind};
use pw_typed::{TExpr, TItem};
use pw_value::words::word_of_u64;
use std::alloc::{AllocError, Global};

/// The declared name, at which the faults of types stand; whether constants are asked for; the hidden object of a local
/// that is initialised by its bytes.
#[derive(Clone, Copy)]
pub struct Context {
    pub token: usize,
    pub constant: bool,
    pub hidden: u32,
}

/// What initialisers have given: the object's first bytes, and the expressions that they are made of.
#[derive(Drop)]
pub struct Filled {
    pub items: Vec<(u32, TItem)>,
    pub parts: Vec<TExpr>,
}

impl Filled {
    /// An object to which no initialiser has given anything yet.
    pub fn nothing(alloc: Global) -> Filled
        ensures { view_filled result ≡ spec.nothing_filled }
    {
        Filled {
            items: Vec::new(alloc),
            parts: Vec::new(alloc),
        }
    }

    /// What is given with one expression more, and its bytes at an offset, if there are any. An offset that 32 bits
    /// cannot count answers want of memory.
    #[tactic(auto, using(pw_check_state::proofs::PlaceLemmas::map_push))]
    pub fn with(
        mut self,
        offset: u64,
        item: Option<TItem>,
        part: TExpr,
    ) -> Result<Filled, AllocError>
        ensures { IfOk result (λ f. view_filled f ≡ spec.fill (spec.item_list offset (option_map view_item item)) (view_expr part) (view_filled self)) }
    {
        if let Some(item) = item {
            self.items.push((word_of_u64(offset)?, item))?;
        }
        self.parts.push(part)?;
        Ok(self)
    }
}

/// An expression for a part, whose value is converted as by an assignment.
#[tactic(auto, unfolding(pw_check_walk::specs::Walks::bind, pw_check_walk::specs::Walks::outcome, pw_check_rules::specs::Initialisers::value_filled))]
pub fn value_filled(
    alloc: Global,
    state: &State<'_>,
    cx: &Context,
    first: usize,
    target: &Target,
    e: Box<TExpr>,
    filled: Filled,
) -> Result<Filled, CheckFault>
    ensures { Follows view_filled (spec.value_filled (view_context cx.now) first (view_target target.now) (view_node e) (view_filled filled)) (view_state state.now) result }
{
    let ty = &target.ty.ty;
    if is_array(ty) || !is_assignable(alloc, ty, &e)? {
        return Err(typing(cx.token));
    }
    let part = cast_to(alloc, ty, e)?;
    let item = item_of(alloc, state.records(), ty, &part)?;
    if cx.constant && item.is_none() {
        return Err(fault(CheckKind::Constant, first));
    }
    Ok(filled.with(target.offset, item, Box::into_inner(part))?)
}
