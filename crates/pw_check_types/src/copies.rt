//! Copies of types.

ghost use Rattle.std.specs.Prelude.{◌≡◌, IfOk};
ghost use Rattle.pw_check_rules.specs.Kinds as spec;
ghost use Rattle.pw_types.specs.Views.{view_type, view_qtype, view_signature, view_types};

use crate::kinds::plain;
use pw_types::{CType, QType, Signature};
use std::alloc::{AllocError, Global};

/// A copy of a type with all that it is made of; a structure or union is a number. Fails only for want of memory.
#[cycle(copies)]
#[tactic(auto, unfolding(pw_types::specs::Views::view_type), using(pw_types::proofs::ViewLemmas::signature_view))]
pub fn copy_type(alloc: Global, ty: &CType) -> Result<CType, AllocError>
    ensures { IfOk result (λ copy. view_type copy ≡ view_type ty.now) }
{
    match ty {
        CType::Void => Ok(CType::Void),
        CType::Int(kind) => Ok(CType::Int(*kind)),
        CType::Pointer(target) => Ok(CType::Pointer(boxed_copy(alloc, target)?)),
        CType::Array(element, count) => Ok(CType::Array(boxed_copy(alloc, element)?, *count)),
        CType::Function(signature) => Ok(CType::Function(copy_signature(alloc, signature)?)),
        CType::Record(number) => Ok(CType::Record(*number)),
    }
}

/// A copy of a type with its qualifiers.
#[cycle(copies)]
pub fn copy_qtype(alloc: Global, q: &QType) -> Result<QType, AllocError>
    ensures { IfOk result (λ copy. view_qtype copy ≡ view_qtype q.now) }
{
    let ty = copy_type(alloc, &q.ty)?;
    Ok(QType {
        ty,
        constant: q.constant,
        volatile: q.volatile,
    })
}

/// A copy of a qualified type, in a box. Fails only for want of memory.
#[cycle(copies)]
pub fn boxed_copy(alloc: Global, q: &QType) -> Result<Box<QType>, AllocError>
    ensures { IfOk result (λ copy. view_qtype copy.value ≡ view_qtype q.now) }
{
    Ok(Box::new(alloc, copy_qtype(alloc, q)?)?)
}

/// A copy of a function's type in a box.
#[cycle(copies)]
#[tactic(auto, using(pw_types::proofs::ViewLemmas::signature_view))]
pub(crate) fn copy_signature(
    alloc: Global,
    signature: &Signature,
) -> Result<Box<Signature>, AllocError>
    ensures { IfOk result (λ copy. view_signature copy.value ≡ view_signature signature.now) }
{
    let result = copy_qtype(alloc, &signature.result)?;
    let params = copy_qtypes(alloc, &signature.params)?;
    Ok(Box::new(alloc, Signature { result, params })?)
}

/// Copies of several types.
#[cycle(copies)]
#[tactic(auto, using(crate::proofs::TypeLists::view_more))]
pub fn copy_qtypes(alloc: Global, all: &[QType]) -> Result<Vec<QType>, AllocError>
    ensures { IfOk result (λ copies. view_types copies.items ≡ view_types all.now) }
{
    let mut copies = Vec::new(alloc);
    for q in all {
        copies.push(copy_qtype(alloc, q)?)?;
    }
    Ok(copies)
}

/// A copy of a type without its qualifiers.
pub fn unqualified(alloc: Global, q: &QType) -> Result<QType, AllocError>
    ensures { IfOk result (λ copy. view_qtype copy ≡ spec.unqualified (view_qtype q.now)) }
{
    Ok(plain(copy_type(alloc, &q.ty)?))
}
