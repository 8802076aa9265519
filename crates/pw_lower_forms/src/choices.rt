//! `&&`, `||` and `?:`: the blocks that the first operand's value chooses from.

ghost use Rattle.std.specs.Prelude.{◌≡◌, ◌+◌, IfOk, OnOk};
ghost use Rattle.pw_lower.specs.Codes.{lowered_as, cut_here};
ghost use Rattle.pw_lower.specs.Expressions as spec;
ghost use Rattle.pw_lower_forms.specs.Steps as steps;
ghost use Rattle.pw_types.specs.Views.{view_type};

use pw_flow::{End, Op};
use pw_lower::Code;
use pw_lower::code::further;
use pw_lower::operators::truth_in;
use pw_types::{CType, is_void};
use pw_value::NoMemory;
use std::alloc::Global;

/// The temporary of a result, and three blocks: where the value that chooses is not 0, where it is, and
/// where the two ways join.
#[derive(Clone, Copy)]
pub struct Choice {
    pub result: u32,
    pub if_so: u32,
    pub if_not: u32,
    pub join: u32,
}

/// The first operand has its value: the blocks, the first of which is filled from here on.
pub fn fork(
    alloc: Global,
    results: u32,
    value: Option<u32>,
    code: &mut Code,
) -> Result<Choice, NoMemory>
    ensures { IfOk result (λ made. spec.fork results (lowered_as value code.old)
        ≡ record { code = code.new; result = made.result; if_so = made.if_so; if_not = made.if_not; join = made.join }) }
{
    let result = code.reserve_temps(results)?;
    let if_so = code.reserve(3)?;
    let if_not = further(if_so, 1)?;
    let join = further(if_so, 2)?;
    let end = End::Branch(value.unwrap_or(0), if_so, if_not);
    code.cut_here(alloc, end, if_so)?;
    Ok(Choice {
        result,
        if_so,
        if_not,
        join,
    })
}

/// Goes to the join; what stands where the value is 0 is filled from here on.
pub fn turned(alloc: Global, fork: Choice, code: &mut Code) -> Result<(), NoMemory>
    ensures { OnOk result (code.new ≡ cut_here (End.Jump fork.join) fork.if_not code.old) }
{
    code.cut_here(alloc, End::Jump(fork.join), fork.if_not)
}

/// Goes to the join, which is filled from here on.
pub fn joined(alloc: Global, fork: Choice, code: &mut Code) -> Result<(), NoMemory>
    ensures { OnOk result (code.new ≡ cut_here (End.Jump fork.join) fork.join code.old) }
{
    code.cut_here(alloc, End::Jump(fork.join), fork.join)
}

/// The end of `&&`: the truth of its second operand, or 0.
pub fn and_joined(
    alloc: Global,
    fork: Choice,
    second: Option<u32>,
    code: &mut Code,
) -> Result<Option<u32>, NoMemory>
    ensures { IfOk result (λ t. lowered_as t code.new ≡ spec.in_result fork.result (cut_here (End.Jump fork.join) fork.join
        (spec.says fork.result 0 (cut_here (End.Jump fork.join) fork.if_not (spec.decides fork.result (lowered_as second code.old)))))) }
{
    truth_in(fork.result, second.unwrap_or(0), code)?;
    turned(alloc, fork, code)?;
    code.emit(Op::Const(fork.result, 0))?;
    joined(alloc, fork, code)?;
    Ok(Some(fork.result))
}

/// `||` behind its first operand, up to its second.
pub fn or_forked(alloc: Global, first: Option<u32>, code: &mut Code) -> Result<Choice, NoMemory>
    ensures made { IfOk result (λ made. spec.fork 1 (lowered_as first code.old) ≡ record { code = (spec.fork 1 (lowered_as first code.old)).code; result = made.result; if_so = made.if_so; if_not = made.if_not; join = made.join }) }
    ensures code { IfOk result (λ made. code.new ≡ cut_here (End.Jump made.join) made.if_not (spec.says made.result 1 (spec.fork 1 (lowered_as first code.old)).code)) }
{
    let made = fork(alloc, 1, first, code)?;
    code.emit(Op::Const(made.result, 1))?;
    turned(alloc, made, code)?;
    Ok(made)
}

/// The end of `||`: the truth of its second operand, or 1.
pub fn or_joined(
    alloc: Global,
    fork: Choice,
    second: Option<u32>,
    code: &mut Code,
) -> Result<Option<u32>, NoMemory>
    ensures { IfOk result (λ t. lowered_as t code.new ≡ spec.in_result fork.result (cut_here (End.Jump fork.join) fork.join
        (spec.decides fork.result (lowered_as second code.old)))) }
{
    truth_in(fork.result, second.unwrap_or(0), code)?;
    joined(alloc, fork, code)?;
    Ok(Some(fork.result))
}

/// `?:` of a type behind its first operand: one result, unless the type is void.
pub fn cond_forked(
    alloc: Global,
    ty: &CType,
    first: Option<u32>,
    code: &mut Code,
) -> Result<Choice, NoMemory>
    ensures { IfOk result (λ made. spec.fork (steps.results (view_type ty.now)) (lowered_as first code.old)
        ≡ record { code = code.new; result = made.result; if_so = made.if_so; if_not = made.if_not; join = made.join }) }
{
    let results = if is_void(ty) { 0 } else { 1 };
    fork(alloc, results, first, code)
}

/// A value of a type becomes the result, unless the type is void.
fn give(ty: &CType, into: u32, value: Option<u32>, code: &mut Code) -> Result<(), NoMemory>
    ensures { OnOk result (code.new ≡ steps.given (view_type ty.now) into (lowered_as value code.old)) }
{
    if is_void(ty) {
        return Ok(());
    }
    code.emit(Op::Copy(into, value.unwrap_or(0)))
}

/// `?:` behind its second operand, up to its third.
pub fn cond_turned(
    alloc: Global,
    ty: &CType,
    fork: Choice,
    value: Option<u32>,
    code: &mut Code,
) -> Result<(), NoMemory>
    ensures { OnOk result (code.new ≡ cut_here (End.Jump fork.join) fork.if_not
        (steps.given (view_type ty.now) fork.result (lowered_as value code.old))) }
{
    give(ty, fork.result, value, code)?;
    turned(alloc, fork, code)
}

/// `?:` behind its third operand (C90 6.3.15): both ways come together here, and the temporary of the result is
/// answered, or None where the type is void.
pub fn cond_joined(
    alloc: Global,
    ty: &CType,
    fork: Choice,
    value: Option<u32>,
    code: &mut Code,
) -> Result<Option<u32>, NoMemory>
    ensures { IfOk result (λ t. lowered_as t code.new ≡ steps.told (view_type ty.now) fork.result (cut_here (End.Jump fork.join) fork.join
        (steps.given (view_type ty.now) fork.result (lowered_as value code.old)))) }
{
    give(ty, fork.result, value, code)?;
    joined(alloc, fork, code)?;
    Ok((!is_void(ty)).then_some(fork.result))
}
