//! Members of structures and unions (C90 6.3.2.3).

ghost use Rattle.std.specs.Prelude.{◌≡◌, IfOk, option_map};
ghost use Rattle.pw_check_state.specs.Follows.{Follows};
ghost use Rattle.pw_check_state.specs.StateViews.{view_state};
ghost use Rattle.pw_check_state.specs.Views.{view_node, view_operand};
ghost use Rattle.pw_check_postfix.specs.Members.{view_found};
ghost use Rattle.pw_check_rules.specs.Operators as spec;
ghost use Rattle.pw_tree.specs.Views.{view_word};
ghost use Rattle.pw_types.specs.Views.{view_content, view_member, view_type};

use pw_check_operators::deref;
use pw_check_state::{Operand, State, boxed, fault, typing};
use pw_check_types::{copy_qtype, is_record, points_to_record, qualify};
use pw_check_walk::{CheckFault, CheckKind};
use pw_tree::Word;
use pw_typed::{TExpr, TForm};
use pw_types::{CType, Content, Member, Types};
use std::alloc::{AllocError, Global};

/// The member of a name, with its offset in bytes, or None where there is none.
fn member_in<'t>(name: &[u8], content: &'t Content) -> Option<(&'t Member, u32)>
    ensures { option_map view_found result ≡ spec.member_in name.now (view_content content.now) }
{
    let mut rest = content.offsets.as_slice();
    for member in &content.members {
        let (offset, behind) = rest.split_first()?;
        if member.name.as_bytes() == name {
            return Some((member, *offset));
        }
        rest = behind;
    }
    None
}

/// The member of a name in a structure or union that is defined, with its offset in bytes; None where there is none.
#[tactic(auto, unfolding(pw_types::specs::Views::view_type), using(pw_types::proofs::ViewLemmas::signature_view))]
fn member_of<'t>(types: &'t Types, ty: &CType, name: &[u8]) -> Option<(&'t Member, u32)>
    ensures { option_map view_found result ≡ spec.member_of types.now (view_type ty.now) name.now }
{
    match ty {
        CType::Record(number) => {
            let content = types.record(*number)?.content.as_ref()?;
            member_in(name, content)
        }
        CType::Void | CType::Int(_) | CType::Pointer(_) | CType::Array(_, _) | CType::Function(_) =>
            None,
    }
}

/// A member of an operand, which has the operand's qualifiers too.
#[tactic(auto, unfolding(pw_typed::specs::Views::view_form))]
fn member_operand(
    alloc: Global,
    token: usize,
    a: Operand,
    member: &Member,
    offset: u32,
) -> Result<Operand, AllocError>
    ensures { IfOk result (λ made. view_operand made ≡ spec.member_operand token (view_operand a) (view_member member.now, offset)) }
{
    let ty = copy_qtype(alloc, &member.ty)?;
    let ty = qualify(ty, a.node.ty.constant, a.node.ty.volatile);
    let node = boxed(alloc, token, ty, TForm::Member(a.node, offset))?;
    Ok(Operand {
        node,
        lvalue: a.lvalue,
        register: a.register,
    })
}

/// The member of an operand by its name.
#[tactic(auto, unfolding(pw_check_walk::specs::Walks::bind, pw_check_walk::specs::Walks::outcome, pw_check_rules::specs::Operators::select_rule))]
fn select_rule(
    alloc: Global,
    state: &State,
    token: usize,
    word: &Word,
    a: Operand,
) -> Result<Operand, CheckFault>
    ensures { Follows view_operand (spec.select_rule token (view_word word.now) (view_operand a)) (view_state state.now) result }
{
    let types = state.records();
    let found = member_of(types, &a.node.ty.ty, word.text.as_slice());
    match found {
        Some((member, offset)) => Ok(member_operand(alloc, token, a, member, offset)?),
        None => Err(fault(CheckKind::UnknownName, word.token)),
    }
}

/// `.` behind a structure or union.
#[tactic(auto, unfolding(pw_check_walk::specs::Walks::bind, pw_check_walk::specs::Walks::outcome, pw_check_rules::specs::Operators::dot_rule))]
pub fn dot_rule(
    alloc: Global,
    state: &State,
    token: usize,
    word: &Word,
    a: Operand,
) -> Result<Operand, CheckFault>
    ensures { Follows view_operand (spec.dot_rule token (view_word word.now) (view_operand a)) (view_state state.now) result }
{
    if !is_record(&a.node.ty.ty) {
        return Err(typing(token));
    }
    select_rule(alloc, state, token, word, a)
}

/// `->` behind a pointer to a structure or union.
#[tactic(auto, unfolding(pw_check_walk::specs::Walks::bind, pw_check_walk::specs::Walks::outcome, pw_check_rules::specs::Operators::arrow_rule))]
pub fn arrow_rule(
    alloc: Global,
    state: &State,
    token: usize,
    word: &Word,
    e: Box<TExpr>,
) -> Result<Operand, CheckFault>
    ensures { Follows view_operand (spec.arrow_rule token (view_word word.now) (view_node e)) (view_state state.now) result }
{
    if !points_to_record(&e.ty.ty) {
        return Err(typing(token));
    }
    let a = deref(alloc, token, e)?;
    select_rule(alloc, state, token, word, a)
}
