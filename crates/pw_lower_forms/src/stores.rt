//! Assignments: what is stored where, and the value that this gives.

ghost use Rattle.std.specs.Prelude.{◌≡◌, ◌⊎◌, IfOk, OnErr, OnOk, Some};
ghost use Rattle.pw_lower.specs.Codes.{lowered_as, value_is, temp_of};
ghost use Rattle.pw_lower.specs.Expressions as spec;
ghost use Rattle.pw_lower.specs.Operators.{HasVastTarget, sum_or, target_size, side_of as side, converted as converted_by};
ghost use Rattle.pw_types.specs.Views.{view_type};

use crate::targets::write;
use pw_flow::Op;
use pw_lower::operators::{bytes_of, combined, converted, kind_of, side_of, unit_of};
use pw_lower::{Code, Side, Target};
use pw_types::{BinaryOperator, CType, Types};
use pw_value::{Kind, NoMemory};

/// How an lvalue that is a scalar stands in memory.
pub fn scalar_kind(ty: &CType) -> Kind
    ensures { result ≡ spec.scalar_kind (view_type ty.now) }
{
    match kind_of(ty) {
        Some(kind) => kind,
        None => Kind::W32,
    }
}

/// A scalar's value is stored; it is the value of the assignment.
pub fn stored(
    kind: Kind,
    target: Target,
    value: Option<u32>,
    code: &mut Code,
) -> Result<Option<u32>, NoMemory>
    ensures { IfOk result (λ t. lowered_as t code.new ≡ spec.stored kind target (lowered_as value code.old)) }
{
    write(kind, target, value.unwrap_or(0), code)?;
    Ok(value)
}

/// An object of a type is copied to an address from another; the value is the first address.
pub fn copied(
    types: &Types,
    ty: &CType,
    to: u32,
    from: Option<u32>,
    code: &mut Code,
) -> Result<u32, NoMemory>
    ensures { IfOk result (λ t. value_is t code.new ≡ spec.copied types.now (view_type ty.now) to (lowered_as from code.old)) }
{
    let bytes = bytes_of(types, ty)?;
    code.emit(Op::Move(to, from.unwrap_or(0), bytes, unit_of(types, ty)))?;
    Ok(to)
}

/// An operator and what its work depends on: the type in which it works, and what a right operand points
/// to.
#[derive(Clone, Copy)]
pub struct Working {
    pub operator: BinaryOperator,
    pub side: Side,
    pub right: Option<u32>,
}

/// An operator that works in a type on a right operand of another. There is no memory only where one of them is a
/// pointer to what 32 bits cannot count.
pub fn working_in(
    types: &Types,
    operator: BinaryOperator,
    work: &CType,
    right: &CType,
) -> Result<Working, NoMemory>
    ensures operator { IfOk result (λ w. w.operator ≡ operator) }
    ensures side { IfOk result (λ w. w.side ≡ side (types.now) (view_type work.now)) }
    ensures right { IfOk result (λ w. w.right ≡ target_size types.now (view_type right.now)) }
    ensures wants { OnErr result (HasVastTarget types.now (view_type work.now) ⊎ HasVastTarget types.now (view_type right.now)) }
{
    let side = side_of(types, work)?;
    let right = side_of(types, right)?.size;
    Ok(Working {
        operator,
        side,
        right,
    })
}

/// What was read from a place, combined with a right operand, converted to the place's kind and stored
/// there.
pub fn updated(
    working: Working,
    own: Kind,
    target: Target,
    old: u32,
    right: Option<u32>,
    code: &mut Code,
) -> Result<Option<u32>, NoMemory>
    ensures { IfOk result (λ t. lowered_as t code.new
        ≡ spec.stored own target (converted_by working.side.kind (Some own)
        (sum_or working.operator working.side.signed working.side.size working.right old (temp_of (lowered_as right code.old)) code.old))) }
{
    let sum = combined(
        working.operator,
        working.side,
        working.right,
        old,
        right.unwrap_or(0),
        code,
    )?;
    let value = converted(working.side.kind, Some(own), Some(sum), code)?;
    stored(own, target, value, code)
}
