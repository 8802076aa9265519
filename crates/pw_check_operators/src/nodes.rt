//! The nodes of binary operators (C90 6.3.5 to 6.3.12). The operands meet the operator's constraint, but the nodes are
//! what the rules make of any two.

ghost use Rattle.std.specs.Prelude.{◌≡◌, IfOk};
ghost use Rattle.pw_check_state.specs.Views.{view_node, view_operand};
ghost use Rattle.pw_check_rules.specs.Operands as operands;
ghost use Rattle.pw_check_rules.specs.Operators as spec;
ghost use Rattle.pw_types.specs.TypeTrees as tree;

use pw_check_operands::{both_integral, cast_to, chosen_pointer, common_kind, convert, promote};
use pw_check_state::{Operand, boxed};
use pw_check_types::{is_pointer, plain, unqualified};
use pw_tree::BinaryOperator;
use pw_typed::{BinaryOperator as TypedOperator, TExpr, TForm};
use pw_types::{CType, IntKind};
use std::alloc::{AllocError, Global};

/// The operand that is no lvalue, by its node.
pub fn value(node: Box<TExpr>) -> Operand
    ensures { view_operand result ≡ operands.value_operand (view_node node) }
{
    Operand {
        node,
        lvalue: false,
        register: false,
    }
}

/// The operator of a typed tree, `|` for those that it has not.
pub fn typed_binary(operator: BinaryOperator) -> TypedOperator
    ensures { result ≡ spec.typed_binary operator }
{
    match operator {
        BinaryOperator::Multiply => TypedOperator::Multiply,
        BinaryOperator::Divide => TypedOperator::Divide,
        BinaryOperator::Remainder => TypedOperator::Remainder,
        BinaryOperator::Add => TypedOperator::Add,
        BinaryOperator::Subtract => TypedOperator::Subtract,
        BinaryOperator::LeftShift => TypedOperator::ShiftLeft,
        BinaryOperator::RightShift => TypedOperator::ShiftRight,
        BinaryOperator::Less => TypedOperator::Less,
        BinaryOperator::Greater => TypedOperator::Greater,
        BinaryOperator::LessEqual => TypedOperator::LessEqual,
        BinaryOperator::GreaterEqual => TypedOperator::GreaterEqual,
        BinaryOperator::Equal => TypedOperator::Equal,
        BinaryOperator::NotEqual => TypedOperator::NotEqual,
        BinaryOperator::BitAnd => TypedOperator::And,
        BinaryOperator::BitXor => TypedOperator::ExclusiveOr,
        BinaryOperator::BitOr => TypedOperator::Or,
        BinaryOperator::And | BinaryOperator::Or | BinaryOperator::Comma => TypedOperator::Or,
    }
}

/// Two numbers in the type that they have in common; the operator gives one of this integer type.
#[tactic(auto, unfolding(pw_typed::specs::Views::view_form, pw_types::specs::Views::view_type))]
fn in_common(
    alloc: Global,
    token: usize,
    kind: IntKind,
    operator: TypedOperator,
    a: Box<TExpr>,
    b: Box<TExpr>,
) -> Result<Box<TExpr>, AllocError>
    ensures { IfOk result (λ e. view_node e ≡ spec.in_common token (tree.Int kind) operator (view_node a) (view_node b)) }
{
    let common = common_kind(&a, &b);
    let left = convert(alloc, common, a)?;
    let right = convert(alloc, common, b)?;
    let form = TForm::Binary(operator, left, right);
    boxed(alloc, token, plain(CType::Int(kind)), form)
}

/// An operator on two numbers that gives one of their common type.
pub fn arithmetic_node(
    alloc: Global,
    token: usize,
    operator: TypedOperator,
    a: Box<TExpr>,
    b: Box<TExpr>,
) -> Result<Box<TExpr>, AllocError>
    ensures { IfOk result (λ e. view_node e ≡ spec.arithmetic_node token operator (view_node a) (view_node b)) }
{
    let common = common_kind(&a, &b);
    in_common(alloc, token, common, operator, a, b)
}

/// A shift: each operand is promoted by itself, and the left one gives the type (C90 6.3.7).
#[tactic(auto, unfolding(pw_typed::specs::Views::view_form, pw_types::specs::Views::view_type))]
pub fn shift_node(
    alloc: Global,
    token: usize,
    operator: TypedOperator,
    a: Box<TExpr>,
    b: Box<TExpr>,
) -> Result<Box<TExpr>, AllocError>
    ensures { IfOk result (λ e. view_node e ≡ spec.shift_node token operator (view_node a) (view_node b)) }
{
    let left = promote(alloc, a)?;
    let right = promote(alloc, b)?;
    let ty = unqualified(alloc, &left.ty)?;
    boxed(alloc, token, ty, TForm::Binary(operator, left, right))
}

/// A comparison, which gives an int: of numbers in their common type, of pointers in the type that they become.
#[tactic(auto, unfolding(pw_typed::specs::Views::view_form, pw_types::specs::Views::view_type))]
pub fn comparison_node(
    alloc: Global,
    token: usize,
    operator: TypedOperator,
    a: Box<TExpr>,
    b: Box<TExpr>,
) -> Result<Box<TExpr>, AllocError>
    ensures { IfOk result (λ e. view_node e ≡ spec.comparison_node token operator (view_node a) (view_node b)) }
{
    if both_integral(&a, &b) {
        return in_common(alloc, token, IntKind::Int, operator, a, b);
    }
    let met = chosen_pointer(alloc, &a, &b)?;
    let left = cast_to(alloc, &met, a)?;
    let right = cast_to(alloc, &met, b)?;
    let form = TForm::Binary(operator, left, right);
    boxed(alloc, token, plain(CType::Int(IntKind::Int)), form)
}

/// A sum, or a difference with a number behind: where one is a pointer, the number is not converted (C90 6.3.6).
#[tactic(auto, unfolding(pw_typed::specs::Views::view_form, pw_types::specs::Views::view_type))]
pub fn sum_node(
    alloc: Global,
    token: usize,
    operator: TypedOperator,
    a: Box<TExpr>,
    b: Box<TExpr>,
) -> Result<Box<TExpr>, AllocError>
    ensures { IfOk result (λ e. view_node e ≡ spec.sum_node token operator (view_node a) (view_node b)) }
{
    if is_pointer(&a.ty.ty) {
        let ty = unqualified(alloc, &a.ty)?;
        return boxed(alloc, token, ty, TForm::Binary(operator, a, b));
    }
    if is_pointer(&b.ty.ty) {
        let ty = unqualified(alloc, &b.ty)?;
        return boxed(alloc, token, ty, TForm::Binary(operator, a, b));
    }
    arithmetic_node(alloc, token, operator, a, b)
}

/// A difference; of two pointers it is an int.
#[tactic(auto, unfolding(pw_typed::specs::Views::view_form, pw_types::specs::Views::view_type))]
pub fn difference_node(
    alloc: Global,
    token: usize,
    operator: TypedOperator,
    a: Box<TExpr>,
    b: Box<TExpr>,
) -> Result<Box<TExpr>, AllocError>
    ensures { IfOk result (λ e. view_node e ≡ spec.difference_node token operator (view_node a) (view_node b)) }
{
    if !is_pointer(&a.ty.ty) || !is_pointer(&b.ty.ty) {
        return sum_node(alloc, token, operator, a, b);
    }
    let form = TForm::Binary(operator, a, b);
    boxed(alloc, token, plain(CType::Int(IntKind::Int)), form)
}

/// The node of a binary operator over two operands (C90 6.3.5 to 6.3.12), which are converted as the operator wants:
/// to a common type, promoted, or with a count scaled by the pointer's element.
pub fn binary_node(
    alloc: Global,
    token: usize,
    operator: BinaryOperator,
    a: Box<TExpr>,
    b: Box<TExpr>,
) -> Result<Box<TExpr>, AllocError>
    ensures { IfOk result (λ e. view_node e ≡ spec.binary_node token operator (view_node a) (view_node b)) }
{
    let typed = typed_binary(operator);
    match operator {
        BinaryOperator::Add => sum_node(alloc, token, typed, a, b),
        BinaryOperator::Subtract => difference_node(alloc, token, typed, a, b),
        BinaryOperator::LeftShift | BinaryOperator::RightShift => {
            shift_node(alloc, token, typed, a, b)
        }
        BinaryOperator::Less
        | BinaryOperator::Greater
        | BinaryOperator::LessEqual
        | BinaryOperator::GreaterEqual
        | BinaryOperator::Equal
        | BinaryOperator::NotEqual => comparison_node(alloc, token, typed, a, b),
        BinaryOperator::Multiply
        | BinaryOperator::Divide
        | BinaryOperator::Remainder
        | BinaryOperator::BitAnd
        | BinaryOperator::BitXor
        | BinaryOperator::BitOr
        | BinaryOperator::And
        | BinaryOperator::Or
        | BinaryOperator::Comma => arithmetic_node(alloc, token, typed, a, b),
    }
}
