//! The operators by the types of their operands, truth, and conversions (ISO C90 6.2, 6.3).

ghost use Rattle.std.specs.Prelude.{◌≡◌};
ghost use Rattle.pw_cmean.specs.Operators as meaning;
ghost use Rattle.pw_interp_state.specs.Operations as spec;

use crate::category::Category;
use crate::fault::{Fault, judge};
use crate::findings::when;
use crate::numbers::{number_for, on_numbers, unary_number};
use crate::objects::Objects;
use crate::pointers::{advance_elements, is_ended, is_piece, on_pointers};
use pw_cmean::Undef;
use pw_types::{BinaryOperator, IntKind, Layout, UnaryOperator};
use pw_value::Value;

/// Whether a number or a pointer is unlike 0; None where a value is neither.
fn unlike_zero(v: Value) -> Option<bool>
    ensures { result ≡ meaning.unlike_zero v }
{
    match v {
        Value::Num(n) => Some(n != 0),
        Value::Null => Some(false),
        Value::At(_) => Some(true),
        Value::Undefined | Value::Piece(_, _) => None,
    }
}

/// Whether a scalar is unlike 0 (ISO C90 6.3.3.3, 6.3.13, 6.3.14, 6.6.4.1).
pub fn truth(objects: &Objects, v: Value) -> Result<bool, Fault>
    ensures { result ≡ spec.truth_of objects.now v }
{
    let found = when(Undef::PointerBytes, is_piece(v), None);
    judge(when(Undef::EndedObject, is_ended(objects, v), found))?;
    match unlike_zero(v) {
        Some(holds) => Ok(holds),
        None => Err(Fault::Wrong),
    }
}

/// A unary operator on an operand, whose result has a type of the category.
pub fn unary(
    objects: &Objects,
    op: UnaryOperator,
    category: Category,
    v: Value,
) -> Result<Value, Fault>
    ensures { result ≡ spec.unary_by objects.now op category v }
{
    match op {
        UnaryOperator::Not => {
            let holds = truth(objects, v)?;
            Ok(Value::Num(number_for(!holds)))
        }
        UnaryOperator::Plus | UnaryOperator::Minus | UnaryOperator::Complement => {
            unary_number(op, category, v)
        }
    }
}

/// A pointer and a number.
fn pointer_and_number(
    objects: &Objects,
    layout: Option<Layout>,
    op: BinaryOperator,
    p: Value,
    kind: IntKind,
    v: Value,
) -> Result<Value, Fault>
    ensures { result ≡ spec.pointer_and_number_by objects.now layout op p kind v }
{
    match op {
        BinaryOperator::Add => advance_elements(objects, layout, false, p, kind, v),
        BinaryOperator::Subtract => advance_elements(objects, layout, true, p, kind, v),
        _ => Err(Fault::Wrong),
    }
}

/// A number and a pointer.
fn number_and_pointer(
    objects: &Objects,
    layout: Option<Layout>,
    op: BinaryOperator,
    kind: IntKind,
    v: Value,
    p: Value,
) -> Result<Value, Fault>
    ensures { result ≡ spec.number_and_pointer_by objects.now layout op kind v p }
{
    match op {
        BinaryOperator::Add => advance_elements(objects, layout, false, p, kind, v),
        _ => Err(Fault::Wrong),
    }
}

/// A binary operator on operands of types of these categories. The layout is that of what a pointer among them
/// points to, of two the first.
pub fn binary(
    objects: &Objects,
    layout: Option<Layout>,
    op: BinaryOperator,
    a: Category,
    b: Category,
    v: Value,
    w: Value,
) -> Result<Value, Fault>
    ensures { result ≡ spec.binary_by objects.now layout op a b v w }
{
    match (a, b) {
        (Category::Int(kind), Category::Int(_)) => on_numbers(op, kind, v, w),
        (Category::Pointer, Category::Int(kind)) => {
            pointer_and_number(objects, layout, op, v, kind, w)
        }
        (Category::Int(kind), Category::Pointer) => {
            number_and_pointer(objects, layout, op, kind, v, w)
        }
        (Category::Pointer, Category::Pointer) => on_pointers(objects, layout, op, v, w),
        _ => Err(Fault::Wrong),
    }
}

/// A value as a pointer; the number 0 is the null pointer (ISO C90 6.2.2.3).
fn as_pointer(v: Value) -> Option<Value>
    ensures { result ≡ meaning.as_pointer v }
{
    match v {
        Value::Num(0) | Value::Null => Some(Value::Null),
        Value::At(_) => Some(v),
        Value::Num(_) | Value::Undefined | Value::Piece(_, _) => None,
    }
}

/// A value as one of an integer type.
fn to_integer(kind: IntKind, v: Value) -> Result<Value, Fault>
    ensures { result ≡ spec.converted_to (Category.Int kind) v }
{
    judge(when(Undef::PointerBytes, is_piece(v) && kind.size() != 1, None))?;
    Ok(pw_types::convert(v, kind))
}

/// A conversion to a scalar type of the category (ISO C90 6.2.1, 6.2.2.3).
pub fn convert(category: Category, v: Value) -> Result<Value, Fault>
    ensures { result ≡ spec.converted_to category v }
{
    match category {
        Category::Int(kind) => to_integer(kind, v),
        Category::Pointer => as_pointer(v).ok_or(Fault::Wrong),
        Category::Void | Category::Array | Category::Function | Category::Record => {
            Err(Fault::Wrong)
        }
    }
}
