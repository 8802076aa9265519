//! Sums that are longer, and calls that nest deeper, than a text may be, as typed trees.

use pw_typed::{BinaryOperator, Symbol, TExpr, TForm, TModule, TStmt, TStmtForm};
use pw_types::{CType, IntKind, QType};
use std::alloc::{AllocError, Global};

/// An int by its form.
fn int(form: TForm) -> TExpr {
    TExpr {
        token: 1,
        ty: QType {
            ty: CType::Int(IntKind::Int),
            constant: false,
            volatile: false,
        },
        form,
    }
}

/// An expression plus 1.
fn one_more(alloc: Global, e: TExpr) -> Result<TExpr, AllocError> {
    let e = Box::new(alloc, e)?;
    let one = Box::new(alloc, int(TForm::Number(1)))?;
    Ok(int(TForm::Binary(BinaryOperator::Add, e, one)))
}

/// `1 + 1 + ..` with so many operands, and at least one.
fn sum(alloc: Global, operands: u32) -> Result<TExpr, AllocError> {
    let mut sum = int(TForm::Number(1));
    for _operand in 1..operands {
        sum = one_more(alloc, sum)?;
    }
    Ok(sum)
}

/// A call of a function with one argument.
fn call(alloc: Global, function: &Symbol, argument: TExpr) -> Result<TExpr, AllocError> {
    let mut args = Vec::new(alloc);
    args.push(argument)?;
    Ok(int(TForm::Call(function.copy(alloc)?, args)))
}

/// So many calls of a function, each the argument of the next, and 0 the innermost argument.
fn nested(alloc: Global, function: &Symbol, calls: u32) -> Result<TExpr, AllocError> {
    let mut nested = int(TForm::Number(0));
    for _call in 0..calls {
        nested = call(alloc, function, nested)?;
    }
    Ok(nested)
}

/// Lets the last function of a module return this.
fn return_last(tree: &mut TModule, e: TExpr) {
    let form = TStmtForm::Return(Some(e));
    if let Some(function) = tree.functions.last_mut() {
        function.body = TStmt { token: 1, form };
    }
}

/// Lets the last function of a module return the sum of so many ones.
pub fn return_ones(alloc: Global, tree: &mut TModule, ones: u32) -> Result<(), AllocError> {
    let ones = sum(alloc, ones)?;
    return_last(tree, ones);
    Ok(())
}

/// Lets the last function of a module return so many calls of the first, nested in one another's arguments.
pub fn return_calls(alloc: Global, tree: &mut TModule, calls: u32) -> Result<(), AllocError> {
    if let Some(function) = tree.functions.first() {
        let calls = nested(alloc, &function.name, calls)?;
        return_last(tree, calls);
    }
    Ok(())
}
