//! The numbers of a typed tree: each is one of 32 bits, since the tree's types hold it so.

ghost use Rattle.std.specs.Prelude.{All, IfSome, map};
ghost use Rattle.pw_typed.specs.Views as view;
ghost use Rattle.pw_types.specs.Spines.{first_of};
ghost use Rattle.pw_law_checked.specs.Lawful.{AreWords, AreWordsOf};
ghost use Rattle.pw_law_checked.specs.Words.{AreWordsInModule, HasOffset, HasWords, HasWordsIfAny, WordsInArms, WordsInElse, WordsInItems, WordsInStatement, WordsInStatements};

use pw_typed::{
    Arm, Initialiser, TExpr, TForm, TFunction, TGlobal, TItem, TModule, TStmt, TStmtForm,
    first_operand,
};

/// The numbers of an expression.
#[cycle(expr_words)]
fn expr_words(e: &TExpr)
    ensures { AreWords (view.view_expr e.now) }
{
    node_words(e);
    let mut node = e;
    while let Some(first) = first_operand(node) {
        node_words(first);
        node = first;
    }
}

/// The number of a node, and those of its operands behind the first: with its first operand's they are all that it has.
#[cycle(expr_words)]
#[tactic(auto, unfolding(pw_typed::specs::Views::view_form), using(pw_typed::proofs::Rows::call_view, pw_typed::proofs::Rows::call_value_view))]
fn node_words(e: &TExpr)
    ensures { IfSome (first_of (view.view_expr e.now)) AreWords → AreWords (view.view_expr e.now) }
{
    match &e.form {
        TForm::Number(number) => {
            let _word = *number;
        }
        TForm::Str(_) | TForm::Local(_) | TForm::Global(_) | TForm::Function(_) => {}
        TForm::Unary(_, _) | TForm::Step(_, _) | TForm::Member(_, _) => {}
        TForm::Cast(_) | TForm::Decay(_) | TForm::Deref(_) | TForm::Address(_) => {}
        TForm::Binary(_, _, b) | TForm::Logic(_, _, b) | TForm::Compound(_, _, _, b) => {
            expr_words(b)
        }
        TForm::Comma(_, b) | TForm::Assign(_, b) => expr_words(b),
        TForm::Cond(_, b, c) => {
            expr_words(b);
            expr_words(c);
        }
        TForm::Call(_, args) => words_of_all(args),
        TForm::CallValue(_, args) => words_of_all(args),
    }
}

/// The numbers of several expressions.
#[cycle(expr_words)]
fn words_of_all(all: &[TExpr])
    ensures { AreWordsOf (view.view_exprs all.now) }
{
    for e in all {
        expr_words(e);
    }
}

/// The numbers of an expression that may be absent.
fn optional_words(e: &Option<TExpr>)
    ensures { HasWordsIfAny (view.view_optional e.now) }
{
    match e {
        Some(e) => expr_words(e),
        None => {}
    }
}

/// The numbers of a local's initialiser.
fn initialiser_words(initialiser: &Initialiser)
    ensures { HasWords (view.view_initialiser initialiser.now) }
{
    match initialiser {
        Initialiser::Value(_, value) => expr_words(value),
        Initialiser::Bytes(_, _, _) => {}
    }
}

/// The numbers of the initialisers of a block's locals.
fn words_of_initialisers(all: &[Initialiser])
    ensures { All HasWords (view.view_initialisers all.now) }
{
    for initialiser in all {
        initialiser_words(initialiser);
    }
}

/// The numbers of a statement.
#[cycle(stmt_words)]
#[tactic(auto, unfolding(pw_typed::specs::Views::view_stmt_form), using(pw_typed::proofs::Rows::block_view, pw_typed::proofs::Rows::if_view))]
fn stmt_words(s: &TStmt)
    ensures { WordsInStatement (view.view_stmt s.now) }
{
    match &s.form {
        TStmtForm::Empty | TStmtForm::Goto(_) | TStmtForm::Break | TStmtForm::Continue => {}
        TStmtForm::Expr(e) => expr_words(e),
        TStmtForm::Return(e) => optional_words(e),
        TStmtForm::Block {
            initialisers,
            items,
            ..
        } => {
            words_of_initialisers(initialisers);
            words_of_statements(items);
        }
        TStmtForm::If(arms, otherwise) => {
            arm_words(arms);
            else_words(otherwise);
        }
        TStmtForm::While(e, body) | TStmtForm::Do(body, e) | TStmtForm::Switch(e, _, _, body) => {
            expr_words(e);
            stmt_words(body);
        }
        TStmtForm::For(first, test, step, body) => {
            optional_words(first);
            optional_words(test);
            optional_words(step);
            stmt_words(body);
        }
        TStmtForm::Label(_, body) => stmt_words(body),
    }
}

/// The numbers of the arms of an `if`.
#[cycle(stmt_words)]
fn arm_words(arms: &[Arm])
    ensures { WordsInArms (view.view_arms arms.now) }
{
    for arm in arms {
        expr_words(&arm.condition);
        stmt_words(&arm.body);
    }
}

/// The numbers of what stands behind a last `else`.
#[cycle(stmt_words)]
fn else_words(otherwise: &Option<Box<TStmt>>)
    ensures { WordsInElse (view.view_otherwise otherwise.now) }
{
    match otherwise {
        Some(s) => stmt_words(s),
        None => {}
    }
}

/// The numbers of several statements.
#[cycle(stmt_words)]
fn words_of_statements(all: &[TStmt])
    ensures { WordsInStatements (view.view_stmts all.now) }
{
    for s in all {
        stmt_words(s);
    }
}

/// The numbers of the functions.
fn words_of_functions(all: &[TFunction])
    ensures { All (λ f. WordsInStatement f.body) (map view.view_function all.now) }
{
    for f in all {
        stmt_words(&f.body);
    }
}

/// The offset of an item that is an address.
fn item_word(item: &TItem)
    ensures { HasOffset (view.view_item item.now) }
{
    match item {
        TItem::Address(_, offset) => {
            let _word = *offset;
        }
        TItem::Bytes(_) => {}
    }
}

/// The numbers of an object's items.
fn item_words(items: &[(u32, TItem)])
    ensures { WordsInItems (map view.view_placed items.now) }
{
    for item in items {
        item_word(&item.1);
    }
}

/// The numbers of the objects.
fn words_of_objects(all: &[TGlobal])
    ensures { All (λ g. WordsInItems g.items) (map view.view_global all.now) }
{
    for object in all {
        item_words(&object.items);
    }
}

/// Each number of a typed tree that the code makes is one of 32 bits. It is a law: it does nothing but go through the tree.
pub fn numbers_are_words(made: &TModule)
    ensures { AreWordsInModule (view.view_module made.now) }
{
    words_of_functions(&made.functions);
    words_of_objects(&made.globals);
}
