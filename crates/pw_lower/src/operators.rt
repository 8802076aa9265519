//! What lowering makes of types, conversions and operators on values that stand in temporaries.

ghost use Rattle.std.specs.Prelude.{◌≡◌, ◌≤◌, ◌^◌, ◌∷◌, [], IfOk, MatchResult, OnOk, Some, Option, ℕ};
ghost use Rattle.pw_lower.specs.Codes.{lowered_as, value_is, temp_of};
ghost use Rattle.pw_lower.specs.Operators as spec;
ghost use Rattle.pw_types.specs.Views.{view_type};
ghost use Rattle.pw_types.specs.WellTyped.{promoted_type};

use crate::code::Code;
use pw_flow::{BinKind, ExtKind, Op, UnKind};
use pw_types::{
    BinaryOperator, CType, IntKind, StepOperator, Types, UnaryOperator, layout, promote, size,
};
use pw_value::words::word_of_u64;
use pw_value::{Kind, NoMemory};

/// What an operator's work depends on in the type of an operand: whether it is signed, for a pointer the
/// size of what it points to, and how a scalar stands in memory.
#[derive(Clone, Copy)]
pub struct Side {
    pub signed: bool,
    pub size: Option<u32>,
    pub kind: Option<Kind>,
}

/// How an integer type stands in memory.
fn kind_of_int(kind: IntKind) -> Kind
    ensures { result ≡ spec.kind_of_int kind }
{
    match kind {
        IntKind::Char | IntKind::SChar => Kind::S8,
        IntKind::UChar => Kind::U8,
        IntKind::Short => Kind::S16,
        IntKind::UShort => Kind::U16,
        IntKind::Int | IntKind::UInt | IntKind::Long | IntKind::ULong => Kind::W32,
    }
}

/// How a scalar type stands in memory: pointers and numbers of four bytes alike.
#[tactic(auto, unfolding(pw_types::specs::Views::view_type), using(pw_types::proofs::ViewLemmas::signature_view))]
pub fn kind_of(ty: &CType) -> Option<Kind>
    ensures { result ≡ spec.kind_of (view_type ty.now) }
{
    match ty {
        CType::Int(kind) => Some(kind_of_int(*kind)),
        CType::Pointer(_) => Some(Kind::W32),
        CType::Void | CType::Array(_, _) | CType::Function(_) | CType::Record(_) => None,
    }
}

/// Whether an operator takes operands of the type as signed; pointers are ordered as unsigned numbers.
#[tactic(auto, unfolding(pw_types::specs::Views::view_type), using(pw_types::proofs::ViewLemmas::signature_view))]
fn is_signed(ty: &CType) -> bool
    ensures { result ≡ spec.is_signed (view_type ty.now) }
{
    match ty {
        CType::Int(kind) => kind.is_signed(),
        CType::Void | CType::Pointer(_) | CType::Array(_, _) => false,
        CType::Function(_) | CType::Record(_) => false,
    }
}

/// The size of an object of a type. There is no memory for one that 32 bits cannot count, and for no other.
pub fn bytes_of(types: &Types, ty: &CType) -> Result<u32, NoMemory>
    ensures { MatchResult result (λ n. n ≡ spec.bytes_of types.now (view_type ty.now)) (λ _. 2 ^ 32 ≤ spec.bytes_of types.now (view_type ty.now)) }
{
    match size(types, ty) {
        Some(bytes) => word_of_u64(bytes),
        None => Ok(0),
    }
}

/// The unit in which an object of a type is copied: its alignment.
pub fn unit_of(types: &Types, ty: &CType) -> u32
    ensures { result ≡ spec.unit_of types.now (view_type ty.now) }
{
    match layout(types, ty) {
        Some(layout) => layout.align,
        None => 1,
    }
}

/// The size of what a pointer points to; of no pointer, none. There is no memory for one that 32 bits cannot count, and
/// for no other.
#[tactic(auto, unfolding(pw_types::specs::Views::view_type), using(pw_types::proofs::ViewLemmas::signature_view))]
fn target_size(types: &Types, ty: &CType) -> Result<Option<u32>, NoMemory>
    ensures { MatchResult result (λ n. n ≡ spec.target_size types.now (view_type ty.now)) (λ _. spec.HasVastTarget types.now (view_type ty.now)) }
{
    match ty {
        CType::Pointer(target) => Ok(Some(bytes_of(types, &target.ty)?)),
        CType::Void | CType::Int(_) | CType::Array(_, _) => Ok(None),
        CType::Function(_) | CType::Record(_) => Ok(None),
    }
}

/// What an operator's work depends on in a type. There is no memory only for a pointer to what 32 bits cannot count.
pub fn side_of(types: &Types, ty: &CType) -> Result<Side, NoMemory>
    ensures { MatchResult result (λ side. side ≡ spec.side_of types.now (view_type ty.now)) (λ _. spec.HasVastTarget types.now (view_type ty.now)) }
{
    Ok(Side {
        signed: is_signed(ty),
        size: target_size(types, ty)?,
        kind: kind_of(ty),
    })
}

/// What an operator's work depends on in the type in which `++` and `--` work on an operand of a type. There is no
/// memory only for a pointer to what 32 bits cannot count.
#[tactic(auto, unfolding(pw_types::specs::Views::view_type), using(pw_types::proofs::ViewLemmas::signature_view))]
pub fn step_side(types: &Types, ty: &CType) -> Result<Side, NoMemory>
    ensures { MatchResult result (λ side. side ≡ spec.side_of types.now (promoted_type (view_type ty.now))) (λ _. spec.HasVastTarget types.now (promoted_type (view_type ty.now))) }
{
    match ty {
        CType::Int(kind) => Ok(Side {
            signed: promote(*kind).is_signed(),
            size: None,
            kind: Some(kind_of_int(promote(*kind))),
        }),
        CType::Void | CType::Pointer(_) | CType::Array(_, _) => side_of(types, ty),
        CType::Function(_) | CType::Record(_) => side_of(types, ty),
    }
}

/// The extension that a conversion to a character or short type needs, where that type does not hold
/// every value of the operand's.
fn extension(from: Kind, to: Kind) -> Option<ExtKind>
    ensures { result ≡ spec.extension from to }
{
    match (from, to) {
        (_, Kind::W32) | (Kind::S8, Kind::S8) | (Kind::U8, Kind::U8) => None,
        (_, Kind::S8) => Some(ExtKind::S8),
        (_, Kind::U8) => Some(ExtKind::U8),
        (Kind::S8 | Kind::U8 | Kind::S16, Kind::S16) => None,
        (_, Kind::S16) => Some(ExtKind::S16),
        (Kind::U8 | Kind::U16, Kind::U16) => None,
        (_, Kind::U16) => Some(ExtKind::U16),
    }
}

/// A scalar of one kind as one of another.
fn extended(from: Kind, to: Kind, t: u32, code: &mut Code) -> Result<u32, NoMemory>
    ensures { IfOk result (λ r. value_is r code.new ≡ spec.extended (spec.extension from to) t code.old) }
{
    match extension(from, to) {
        Some(kind) => code.extension(kind, t),
        None => Ok(t),
    }
}

/// A value of one type as one of another.
pub fn converted(
    from: Option<Kind>,
    to: Option<Kind>,
    value: Option<u32>,
    code: &mut Code,
) -> Result<Option<u32>, NoMemory>
    ensures { IfOk result (λ r. lowered_as r code.new ≡ spec.converted from to (lowered_as value code.old)) }
{
    match (from, to) {
        (Some(from), Some(to)) => Ok(Some(extended(from, to, value.unwrap_or(0), code)?)),
        _ => Ok(value),
    }
}

/// The operation of an operator on numbers, by whether the left operand's type is signed.
fn operation_of(operator: BinaryOperator, signed: bool) -> BinKind
    ensures { result ≡ spec.operation_of operator signed }
{
    match (operator, signed) {
        (BinaryOperator::Add, _) => BinKind::Add,
        (BinaryOperator::Subtract, _) => BinKind::Sub,
        (BinaryOperator::Multiply, _) => BinKind::Mul,
        (BinaryOperator::Divide, true) => BinKind::DivS,
        (BinaryOperator::Divide, false) => BinKind::DivU,
        (BinaryOperator::Remainder, true) => BinKind::RemS,
        (BinaryOperator::Remainder, false) => BinKind::RemU,
        (BinaryOperator::ShiftLeft, _) => BinKind::Shl,
        (BinaryOperator::ShiftRight, true) => BinKind::ShrS,
        (BinaryOperator::ShiftRight, false) => BinKind::ShrU,
        (BinaryOperator::Less | BinaryOperator::Greater, true) => BinKind::LtS,
        (BinaryOperator::Less | BinaryOperator::Greater, false) => BinKind::LtU,
        (BinaryOperator::LessEqual | BinaryOperator::GreaterEqual, true) => BinKind::LeS,
        (BinaryOperator::LessEqual | BinaryOperator::GreaterEqual, false) => BinKind::LeU,
        (BinaryOperator::Equal, _) => BinKind::Eq,
        (BinaryOperator::NotEqual, _) => BinKind::Ne,
        (BinaryOperator::And, _) => BinKind::And,
        (BinaryOperator::ExclusiveOr, _) => BinKind::Xor,
        (BinaryOperator::Or, _) => BinKind::Or,
    }
}

/// Whether an operator's operation takes the operands in the other order.
fn is_turned(operator: BinaryOperator) -> bool
    ensures { result ≡ spec.is_turned operator }
{
    matches!(
        operator,
        BinaryOperator::Greater | BinaryOperator::GreaterEqual
    )
}

/// An operator on two numbers, whose values stand in two temporaries.
fn on_numbers(
    operator: BinaryOperator,
    signed: bool,
    a: u32,
    b: u32,
    code: &mut Code,
) -> Result<u32, NoMemory>
    ensures { IfOk result (λ r. value_is r code.new ≡ spec.on_numbers operator signed a b code.old) }
{
    let kind = operation_of(operator, signed);
    if is_turned(operator) {
        code.binary(kind, b, a)
    } else {
        code.binary(kind, a, b)
    }
}

/// A number times a size.
fn scaled(size: u32, n: u32, code: &mut Code) -> Result<u32, NoMemory>
    ensures { IfOk result (λ r. value_is r code.new ≡ spec.scaled size n code.old) }
{
    if size == 1 {
        return Ok(n);
    }
    let size = code.constant(size)?;
    code.binary(BinKind::Mul, n, size)
}

/// A pointer to elements of a size plus or minus a number.
fn moved_by(
    kind: BinKind,
    size: u32,
    pointer: u32,
    n: u32,
    code: &mut Code,
) -> Result<u32, NoMemory>
    ensures { IfOk result (λ r. value_is r code.new ≡ spec.moved_by kind size pointer n code.old) }
{
    let bytes = scaled(size, n, code)?;
    code.binary(kind, pointer, bytes)
}

/// The difference of two pointers to elements of a size.
fn distance(size: u32, p: u32, q: u32, code: &mut Code) -> Result<u32, NoMemory>
    ensures { IfOk result (λ r. value_is r code.new ≡ spec.distance size p q code.old) }
{
    let bytes = code.binary(BinKind::Sub, p, q)?;
    if size == 1 {
        return Ok(bytes);
    }
    let size = code.constant(size)?;
    code.binary(BinKind::DivS, bytes, size)
}

/// A binary operator on operands of two types, whose values stand in two temporaries.
pub fn combined(
    operator: BinaryOperator,
    left: Side,
    right: Option<u32>,
    a: u32,
    b: u32,
    code: &mut Code,
) -> Result<u32, NoMemory>
    ensures { IfOk result (λ r. value_is r code.new ≡ spec.sum_or operator left.signed left.size right a b code.old) }
{
    match (operator, left.size, right) {
        (BinaryOperator::Add, Some(size), _) => moved_by(BinKind::Add, size, a, b, code),
        (BinaryOperator::Add, None, Some(size)) => moved_by(BinKind::Add, size, b, a, code),
        (BinaryOperator::Subtract, Some(size), Some(_)) => distance(size, a, b, code),
        (BinaryOperator::Subtract, Some(size), None) => moved_by(BinKind::Sub, size, a, b, code),
        _ => on_numbers(operator, left.signed, a, b, code),
    }
}

/// Whether a number is not 0, in a temporary that is there.
pub fn truth_in(into: u32, t: u32, code: &mut Code) -> Result<(), NoMemory>
    ensures { OnOk result (code.new ≡ spec.truth_in into t code.old) }
{
    let zero = code.constant(0)?;
    code.emit(Op::Bin(BinKind::Ne, into, t, zero))
}

/// A unary operator on a value in a temporary.
pub fn unary_on(operator: UnaryOperator, a: u32, code: &mut Code) -> Result<u32, NoMemory>
    ensures { IfOk result (λ r. value_is r code.new ≡ spec.unary_on operator a code.old) }
{
    match operator {
        UnaryOperator::Plus => Ok(a),
        UnaryOperator::Minus => code.unary(UnKind::Neg, a),
        UnaryOperator::Complement => code.unary(UnKind::Not, a),
        UnaryOperator::Not => {
            let zero = code.constant(0)?;
            code.binary(BinKind::Eq, a, zero)
        }
    }
}

/// Whether the operator stands behind its operand.
pub fn is_behind(operator: StepOperator) -> bool
    ensures { result ≡ spec.is_behind operator }
{
    matches!(
        operator,
        StepOperator::IncrementBehind | StepOperator::DecrementBehind
    )
}
