//! The limits on types and names that are declared (C90 5.2.4.1).

ghost use Rattle.std.specs.Prelude.{◌≡◌, [], ◌∷◌, length, IfOk};
ghost use Rattle.pw_check_walk.specs.Causes.{keeps};
ghost use Rattle.pw_check_walk.specs.Found.{found, found_behind};
ghost use Rattle.pw_check_walk.specs.declared.constraints.Which.TheVariants.{TypeDepth};
ghost use Rattle.pw_check_rules.specs.Limits as spec;
ghost use Rattle.pw_types.specs.Records.{depth_of};
ghost use Rattle.pw_types.specs.Shapes.{shape_of};
ghost use Rattle.pw_types.specs.Views.{view_type, view_qtype};
ghost use Rattle.pw_value.specs.Limits.{depth_limit, shape_limit};

use pw_check_types::count_of_types;
use pw_check_walk::{CheckKind, Finding, Which};
use pw_types::{CType, QType, Types, depth, oversize, shape};
use pw_value::limits::{DEPTH_LIMIT, PARAMETER_LIMIT, SHAPE_LIMIT};
use std::alloc::{AllocError, Global};

/// The greatest count of bytes of an identifier.
pub const IDENTIFIER_LIMIT: u64 = 255;

/// The limit of an identifier is the one that the definitions speak of.
pub fn limit_of_an_identifier()
    ensures { IDENTIFIER_LIMIT ≡ spec.identifier_limit }
{}

/// A count that passes a limit.
fn above(most: u64, count: u64) -> Option<u64>
    ensures { result ≡ spec.above most count }
{
    if most < count { Some(count) } else { None }
}

/// One constraint more: there is no count that passes the limit.
fn passes(so_far: Finding, limit: Which, token: usize, count: Option<u64>) -> Finding
    ensures { result.least ≡ found_behind so_far.least (spec.passes limit token count ∷ []) }
{
    match count {
        Some(count) => so_far.needs(CheckKind::Limit(limit, count), token, false),
        None => so_far,
    }
}

/// The length of the first shape that is too long, among those of a type and of its elements, from the element outward;
/// of what a pointer points to a shape has nothing. None where they all keep the limit.
#[tactic(auto, unfolding(pw_types::specs::Views::view_type, pw_check_rules::specs::Limits::long_shape_of), using(pw_types::proofs::ViewLemmas::signature_view))]
pub fn long_shape_of(alloc: Global, types: &Types, q: &QType) -> Result<Option<u64>, AllocError>
    ensures { IfOk result (λ long. long ≡ spec.long_shape_of types.now (view_type q.now.ty) q.now.volatile) }
{
    match &q.ty {
        CType::Array(element, _) => match long_shape_of(alloc, types, element)? {
            Some(length) => Ok(Some(length)),
            None => own_long_shape(alloc, types, q),
        },
        CType::Void | CType::Int(_) | CType::Pointer(_) | CType::Function(_) | CType::Record(_) =>
            own_long_shape(alloc, types, q),
    }
}

/// The length of a type's own shape, where it is too long.
fn own_long_shape(alloc: Global, types: &Types, q: &QType) -> Result<Option<u64>, AllocError>
    ensures { IfOk result (λ long. long ≡ spec.above shape_limit (length (shape_of types.now (view_type q.now.ty) q.now.volatile))) }
{
    let text = shape(alloc, types, q)?;
    Ok(above(SHAPE_LIMIT as u64, text.as_bytes().len() as u64))
}

/// The count of parameters of the first function type that has too many, from the element outward. None where none has.
#[tactic(auto, unfolding(pw_types::specs::Views::view_type, pw_check_rules::specs::Limits::many_parameters), using(pw_types::proofs::ViewLemmas::signature_view))]
pub fn many_parameters(ty: &CType) -> Option<u64>
    ensures { result ≡ spec.many_parameters (view_type ty.now) }
{
    match ty {
        CType::Pointer(target) => many_parameters(&target.ty),
        CType::Array(element, _) => many_parameters(&element.ty),
        CType::Function(signature) => match many_parameters(&signature.result.ty) {
            Some(count) => Some(count),
            None => above(
                u64::from(PARAMETER_LIMIT),
                count_of_types(&signature.params) as u64,
            ),
        },
        CType::Void | CType::Int(_) | CType::Record(_) => None,
    }
}

/// One constraint more: the length of a declared name keeps its limit. No name of a text is without bytes.
pub fn name_within(so_far: Finding, token: usize, name: &[u8]) -> Finding
    ensures { result.least ≡ found_behind so_far.least (spec.name_within token name.now ∷ []) }
{
    let length = name.len() as u64;
    so_far.needs(
        CheckKind::Limit(Which::NameLength, length),
        token,
        1 <= length && length <= IDENTIFIER_LIMIT,
    )
}

/// One constraint more: the depth of a type keeps its limit.
fn depth_within(so_far: Finding, types: &Types, token: usize, ty: &CType) -> Finding
    ensures { result.least ≡ found_behind so_far.least (keeps TypeDepth depth_limit token (depth_of types.now (view_type ty.now)) ∷ []) }
{
    so_far.keeps(Which::TypeDepth, DEPTH_LIMIT, token, depth(types, ty))
}

/// What is found of the limits on a type that a declarator builds.
pub fn type_within(
    alloc: Global,
    types: &Types,
    token: usize,
    q: &QType,
) -> Result<Finding, AllocError>
    ensures { IfOk result (λ finding. finding.least ≡ found (spec.type_within types.now token (view_qtype q.now))) }
{
    let large = passes(
        Finding::none(),
        Which::ObjectSize,
        token,
        oversize(types, &q.ty),
    );
    let long = passes(
        large,
        Which::ShapeLength,
        token,
        long_shape_of(alloc, types, q)?,
    );
    let deep = depth_within(long, types, token, &q.ty);
    Ok(passes(deep, Which::Parameters, token, many_parameters(&q.ty)))
}
