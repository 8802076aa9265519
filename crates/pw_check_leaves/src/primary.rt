//! Names and constants as expressions (C90 6.3.1, 6.1.3).

ghost use Rattle.std.specs.Prelude.{◌≡◌, option_map, IfOk};
ghost use Rattle.pw_check_state.specs.EntityViews.{view_entity};
ghost use Rattle.pw_check_state.specs.Follows.{Follows};
ghost use Rattle.pw_check_state.specs.StateViews.{view_state};
ghost use Rattle.pw_check_state.specs.Views.{view_node_at, view_operand};
ghost use Rattle.pw_check_rules.specs.Leaves as spec;
ghost use Rattle.pw_tree.specs.Views.{view_word};
ghost use Rattle.pw_types.specs.Views.{view_qtype};

use crate::names::int_type;
use pw_check_linkage::symbol_at;
use pw_check_literals::{character_constant, integer_constant};
use pw_check_state::{Entity, Operand, State, boxed, fault, value_operand};
use pw_check_types::{copy_qtype, is_function, plain};
use pw_check_walk::{CheckFault, CheckKind};
use pw_tree::Word;
use pw_typed::{Symbol, TForm};
use pw_types::{CType, QType};
use std::alloc::{AllocError, Global};

/// The operand that an lvalue is, from what its node is made of; `register` says whether it was declared so.
#[tactic(auto, unfolding(pw_typed::specs::Views::view_form, pw_types::specs::Views::view_type))]
pub(crate) fn lvalue_operand(
    alloc: Global,
    register: bool,
    token: usize,
    ty: QType,
    form: TForm,
) -> Result<Operand, AllocError>
    ensures { IfOk result (λ a. view_operand a ≡ spec.lvalue_operand register (view_node_at token ty form)) }
{
    let node = boxed(alloc, token, ty, form)?;
    Ok(Operand {
        node,
        lvalue: true,
        register,
    })
}

/// What a name with linkage denotes.
#[tactic(auto, unfolding(pw_typed::specs::Views::view_form, pw_types::specs::Views::view_type))]
fn linked_operand(
    alloc: Global,
    state: &State,
    token: usize,
    place: u32,
    ty: &QType,
) -> Result<Operand, AllocError>
    ensures { IfOk result (λ a. view_operand a ≡ spec.linked_operand (view_state state.now) token place (view_qtype ty.now)) }
{
    let symbol = symbol_at(alloc, state, place)?;
    let ty = copy_qtype(alloc, ty)?;
    if is_function(&ty.ty) {
        value_operand(alloc, token, ty, TForm::Function(symbol))
    } else {
        lvalue_operand(alloc, false, token, ty, TForm::Global(symbol))
    }
}

/// What a name denotes: an object is an lvalue; a typedef name is no expression.
#[tactic(auto, unfolding(pw_typed::specs::Views::view_form, pw_types::specs::Views::view_type))]
fn entity_operand(
    alloc: Global,
    state: &State,
    token: usize,
    entity: &Entity,
) -> Result<Option<Operand>, AllocError>
    ensures { IfOk result (λ a. option_map view_operand a ≡ spec.entity_operand (view_state state.now) token (view_entity entity.now)) }
{
    let operand = match entity {
        Entity::TypeName(_) => return Ok(None),
        Entity::EnumerationConstant(n) => {
            value_operand(alloc, token, int_type(), TForm::Number(*n))?
        }
        Entity::LocalObject(place, ty, register) => {
            let ty = copy_qtype(alloc, ty)?;
            lvalue_operand(alloc, *register, token, ty, TForm::Local(*place))?
        }
        Entity::StaticObject(number, ty) => {
            let ty = copy_qtype(alloc, ty)?;
            let form = TForm::Global(Symbol::Hidden(*number));
            lvalue_operand(alloc, false, token, ty, form)?
        }
        Entity::Linked(place, ty) => linked_operand(alloc, state, token, *place, ty)?,
    };
    Ok(Some(operand))
}

/// A name as an expression (C90 6.3.1).
#[tactic(auto, unfolding(pw_check_walk::specs::Walks::bind, pw_check_walk::specs::Walks::outcome, pw_check_rules::specs::Leaves::identifier_rule))]
pub fn identifier_rule(alloc: Global, state: &State, word: &Word) -> Result<Operand, CheckFault>
    ensures { Follows view_operand (spec.identifier_rule (view_word word.now)) (view_state state.now) result }
{
    let unknown = fault(CheckKind::UnknownName, word.token);
    let Some(entity) = state.entity_of(word.text.as_slice()) else {
        return Err(unknown);
    };
    match entity_operand(alloc, state, word.token, entity)? {
        Some(operand) => Ok(operand),
        None => Err(unknown),
    }
}

/// An integer constant (C90 6.1.3.2).
#[tactic(auto, unfolding(pw_check_walk::specs::Walks::bind, pw_check_walk::specs::Walks::outcome, pw_check_rules::specs::Leaves::number_rule, pw_typed::specs::Views::view_form, pw_types::specs::Views::view_type))]
pub fn number_rule(alloc: Global, state: &State, word: &Word) -> Result<Operand, CheckFault>
    ensures { Follows view_operand (spec.number_rule (view_word word.now)) (view_state state.now) result }
{
    let Some(constant) = integer_constant(word.text.as_slice()) else {
        return Err(fault(CheckKind::Constant, word.token));
    };
    let ty = plain(CType::Int(constant.kind));
    Ok(value_operand(alloc, word.token, ty, TForm::Number(constant.value))?)
}

/// A character constant (C90 6.1.3.4).
#[tactic(auto, unfolding(pw_check_walk::specs::Walks::bind, pw_check_walk::specs::Walks::outcome, pw_check_rules::specs::Leaves::character_rule, pw_typed::specs::Views::view_form, pw_types::specs::Views::view_type))]
pub fn character_rule(alloc: Global, state: &State, word: &Word) -> Result<Operand, CheckFault>
    ensures { Follows view_operand (spec.character_rule (view_word word.now)) (view_state state.now) result }
{
    let Some(value) = character_constant(alloc, word.text.as_slice())? else {
        return Err(fault(CheckKind::Constant, word.token));
    };
    Ok(value_operand(alloc, word.token, int_type(), TForm::Number(value))?)
}
