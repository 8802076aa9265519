//! String literals (C90 6.1.4).

ghost use Rattle.std.specs.Prelude.{◌≡◌, OnOk, IfOk};
ghost use Rattle.pw_check_state.specs.Follows.{Follows, Leads};
ghost use Rattle.pw_check_state.specs.StateViews.{view_state};
ghost use Rattle.pw_check_state.specs.Views.{view_operand};
ghost use Rattle.pw_check_leaves.specs.Parts.{string_bytes_rule};
ghost use Rattle.pw_check_rules.specs.Leaves as spec;
ghost use Rattle.pw_tree.specs.Views.{view_words};
ghost use Rattle.pw_types.specs.Views.{view_qtype};

use crate::primary::lvalue_operand;
use pw_check_literals::push_characters;
use pw_check_state::{HiddenObject, Operand, State, fault};
use pw_check_types::plain;
use pw_check_walk::{CheckFault, CheckKind};
use pw_tree::{Word, first_of_words};
use pw_typed::{TForm, TItem};
use pw_types::{CType, IntKind, QType};
use pw_value::words::word_of;
use std::alloc::{AllocError, Global};

/// The bytes of a string, with the zero at its end.
#[tactic(auto, unfolding(pw_check_walk::specs::Walks::bind, pw_check_walk::specs::Walks::outcome, crate::specs::Parts::string_bytes_rule, pw_check_rules::specs::Leaves::string_point), using(crate::proofs::TextLemmas::characters_more, crate::proofs::TextLemmas::some_unfit, crate::proofs::TextLemmas::fits_append))]
pub fn string_bytes(alloc: Global, state: &State, words: &[Word]) -> Result<Vec<u8>, CheckFault>
    ensures { Follows (λ bytes. bytes.items) (string_bytes_rule (view_words words.now)) (view_state state.now) result }
{
    let mut bytes = Vec::new(alloc);
    for word in words {
        if !push_characters(alloc, word.text.as_slice(), &mut bytes)? {
            return Err(fault(CheckKind::Constant, first_of_words(words)));
        }
    }
    bytes.push(0)?;
    Ok(bytes)
}

/// An array of char for these bytes. What 32 bits cannot count is want of memory.
#[tactic(auto, unfolding(pw_types::specs::Views::view_type))]
pub fn string_type(alloc: Global, bytes: &[u8]) -> Result<QType, AllocError>
    ensures { IfOk result (λ ty. view_qtype ty ≡ spec.string_type bytes.now) }
{
    let count = word_of(bytes.len())?;
    let element = Box::new(alloc, plain(CType::Int(IntKind::Char)))?;
    Ok(plain(CType::Array(element, Some(count))))
}

/// A string is an object that is not to be written, where it is counted.
fn note_string(alloc: Global, state: &mut State, bytes: Vec<u8>) -> Result<(), AllocError>
    ensures { OnOk result (view_state state.new ≡ spec.note_string bytes.items (view_state state.old)) }
{
    if !state.is_counting() {
        return Ok(());
    }
    let ty = string_type(alloc, &bytes)?;
    let mut items = Vec::new(alloc);
    items.push((0, TItem::Bytes(bytes)))?;
    state.add_hidden(HiddenObject {
        ty,
        writable: false,
        items,
    })
}

/// A string as an expression: an object of its own.
pub fn string_rule(alloc: Global, state: &mut State, words: &[Word]) -> Result<Operand, CheckFault>
    ensures { Leads view_operand (spec.string_rule (view_words words.now)) (view_state state.old) result (view_state state.new) }
{
    let bytes = string_bytes(alloc, state, words)?;
    let number = state.next_hidden()?;
    let ty = string_type(alloc, &bytes)?;
    note_string(alloc, state, bytes)?;
    let token = first_of_words(words);
    Ok(lvalue_operand(alloc, false, token, ty, TForm::Str(number))?)
}
