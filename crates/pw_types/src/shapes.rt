//! Shapes of types.

ghost use Rattle.std.specs.Prelude.{◌≡◌, ◌∷◌, ◌++◌, List, ℕ, IfOk, OnOk, map, take, drop};
ghost use Rattle.pw_types.specs.Shapes as spec;
ghost use Rattle.pw_types.specs.Views.{view_type, view_qtype, view_types, view_record};

use crate::ctype::{CType, QType};
use crate::kind::IntKind;
use crate::record::{RecordKind, RecordType};
use crate::types::Types;
use pw_value::{Shape, push_decimal};
use std::alloc::{AllocError, Global};

/// The shape of a type, the text by which modules and calls are compared: a letter for a scalar or void, counts for
/// arrays, the members of structures and unions, the parameters and results of functions, and what is volatile. Fails
/// only for want of memory.
pub fn shape(alloc: Global, types: &Types, ty: &QType) -> Result<Shape, AllocError>
    ensures { IfOk result (λ shape. shape ≡ spec.shape_of types.now (view_type ty.now.ty) ty.now.volatile) }
{
    let mut text = Vec::new(alloc);
    push_shape(&mut text, types, &ty.ty, ty.volatile)?;
    Ok(Shape::new(text))
}

/// Puts the shape of a type, which is volatile or not, behind a text.
#[tactic(auto, unfolding(crate::specs::Views::view_type), using(crate::proofs::ViewLemmas::signature_view))]
pub(crate) fn push_shape(
    text: &mut Vec<u8>,
    types: &Types,
    ty: &CType,
    volatile: bool,
) -> Result<(), AllocError>
    ensures { OnOk result (text.new.items ≡ text.old.items ++ spec.shape_of types.now (view_type ty.now) volatile) }
{
    match ty {
        CType::Void => push_marked(text, volatile, b'v'),
        CType::Int(kind) => push_marked(text, volatile, letter_of_kind(*kind)),
        CType::Pointer(_) => push_marked(text, volatile, b'p'),
        CType::Array(element, count) => {
            push_length(text, *count)?;
            push_shape(text, types, &element.ty, volatile || element.volatile)
        }
        CType::Function(signature) => push_signature(text, &signature.result, &signature.params),
        CType::Record(number) => match types.record(*number) {
            Some(definition) => push_record(text, definition),
            None => Ok(()),
        },
    }
}

/// Puts a letter, after `!` where the type is volatile.
fn push_marked(text: &mut Vec<u8>, volatile: bool, letter: u8) -> Result<(), AllocError>
    ensures { OnOk result (text.new.items ≡ text.old.items ++ spec.marked volatile letter) }
{
    if volatile {
        text.push(b'!')?;
    }
    text.push(letter)?;
    Ok(())
}

/// Puts the length of an array in brackets.
fn push_length(text: &mut Vec<u8>, count: Option<u32>) -> Result<(), AllocError>
    ensures { OnOk result (text.new.items ≡ text.old.items ++ spec.length_text count) }
{
    text.push(b'[')?;
    if let Some(count) = count {
        push_decimal(text, u64::from(count))?;
    }
    text.push(b']')?;
    Ok(())
}

/// Puts the shape of a function's type.
fn push_signature(text: &mut Vec<u8>, answer: &QType, params: &[QType]) -> Result<(), AllocError>
    ensures { OnOk result (text.new.items ≡ text.old.items ++ spec.signature_shape (view_qtype answer.now) (view_types params.now)) }
{
    text.push(b'f')?;
    text.push(letter_of(&answer.ty))?;
    for param in params {
        text.push(letter_of(&param.ty))?;
    }
    Ok(())
}

/// Puts the shape of a structure or union type.
fn push_record(text: &mut Vec<u8>, definition: &RecordType) -> Result<(), AllocError>
    ensures { OnOk result (text.new.items ≡ text.old.items ++ spec.shape_of_record (view_record definition.now)) }
{
    match &definition.content {
        Some(content) => text.extend_from_slice(content.shape.as_bytes()),
        None => {
            text.push(opening(definition.kind))?;
            text.push(closing(definition.kind))?;
            Ok(())
        }
    }
}

/// The bracket that begins the shape of a record.
pub(crate) fn opening(kind: RecordKind) -> u8
    ensures { result ≡ spec.opening kind }
{
    match kind {
        RecordKind::Structure => b'{',
        RecordKind::Union => b'<',
    }
}

/// The bracket that ends the shape of a structure or union.
pub(crate) fn closing(kind: RecordKind) -> u8
    ensures { result ≡ spec.closing kind }
{
    match kind {
        RecordKind::Structure => b'}',
        RecordKind::Union => b'>',
    }
}

/// The letter of a type as a result or a parameter.
#[tactic(auto, unfolding(crate::specs::Views::view_type), using(crate::proofs::ViewLemmas::signature_view))]
fn letter_of(ty: &CType) -> u8
    ensures { result ≡ spec.letter_of (view_type ty.now) }
{
    match ty {
        CType::Void => b'v',
        CType::Int(kind) => letter_of_kind(*kind),
        CType::Pointer(_) | CType::Array(_, _) | CType::Function(_) | CType::Record(_) => b'p',
    }
}

/// The letter of an integer type.
fn letter_of_kind(kind: IntKind) -> u8
    ensures { result ≡ spec.letter_of_kind kind }
{
    match kind {
        IntKind::Char => b'c',
        IntKind::SChar => b'a',
        IntKind::UChar => b'h',
        IntKind::Short => b's',
        IntKind::UShort => b't',
        IntKind::Int => b'i',
        IntKind::UInt => b'j',
        IntKind::Long => b'l',
        IntKind::ULong => b'm',
    }
}
