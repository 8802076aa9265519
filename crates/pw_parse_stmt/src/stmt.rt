//! Statements (C90 6.6).

ghost use Rattle.std.specs.Prelude.{◌≡◌, ◌≢◌, Ok, IfOk, IfErr};
ghost use Rattle.pw_parse_cursor.specs.Reads.{Reads};
ghost use Rattle.pw_parse_cursor.specs.declared.stop.Stop.TheVariants.{NoMemory};
ghost use Rattle.pw_parse_grammar.specs.Statements as spec;
ghost use Rattle.pw_parse_stmt.specs.Views.{before_label, before_stmt, view_label_list, view_stmt_list};
ghost use Rattle.pw_tree.specs.Trees.{Compound};
ghost use Rattle.pw_tree.specs.Views.{view_block, view_label, view_labels, view_stmt};

use pw_parse_control::{
    StmtParts, boxed_expr, do_stmt, for_stmt, if_stmt, switch_stmt, unboxed, up_to, while_stmt,
};
use pw_parse_cursor::{COMMA, CONDITIONAL, Stop, Tokens};
use pw_tree::{Block, Keyword, Label, Lexeme, Mark, Stmt, statements_show_their_lists};
use std::alloc::Global;

/// Reads what stands behind `case`: its expression and the `:` (C90 6.6.1).
#[tactic(auto, unfolding(pw_parse_grammar::specs::Statements::case_label))]
fn case_label<'a, P: StmtParts<'a>>(
    alloc: Global,
    parts: &P,
    tokens: &mut Tokens<'a>,
) -> Result<Label, Stop>
    requires { P.can_read parts.now }
    ensures { Reads view_label (spec.case_label (P.limit parts.now) tokens.old) result tokens.new }
{
    let token = tokens.take_number();
    let value = boxed_expr(alloc, parts, tokens, CONDITIONAL)?;
    tokens.expect(Mark::Colon)?;
    Ok(Label::Case {
        token,
        value: Box::into_inner(value),
    })
}

#[tactic(auto, unfolding(pw_parse_grammar::specs::Statements::default_label))]
fn default_label(tokens: &mut Tokens<'_>) -> Result<Label, Stop>
    ensures reads { Reads view_label (spec.default_label tokens.old) result tokens.new }
    ensures no_memory { IfErr result (λ stop. stop ≢ Stop.NoMemory) }
{
    let token = tokens.take_number();
    tokens.expect(Mark::Colon)?;
    Ok(Label::Default { token })
}

#[tactic(auto, unfolding(pw_parse_grammar::specs::Statements::name_label))]
fn name_label(alloc: Global, tokens: &mut Tokens<'_>, text: &[u8]) -> Result<Label, Stop>
    ensures { Reads view_label (spec.name_label text.now tokens.old) result tokens.new }
{
    let name = tokens.word(alloc, text)?;
    tokens.expect(Mark::Colon)?;
    Ok(Label::Name(name))
}

/// A label, if one stands next. A typedef name can be nothing else where a statement begins.
#[tactic(auto, unfolding(pw_parse_grammar::specs::Statements::label))]
fn label<'a, P: StmtParts<'a>>(
    alloc: Global,
    parts: &P,
    tokens: &mut Tokens<'a>,
) -> Result<Option<Label>, Stop>
    requires { P.can_read parts.now }
    ensures { Reads before_label (spec.label (P.limit parts.now) tokens.old) result tokens.new }
{
    match tokens.peek() {
        Lexeme::Keyword(Keyword::Case) => Ok(Some(case_label(alloc, parts, tokens)?)),
        Lexeme::Keyword(Keyword::Default) => Ok(Some(default_label(tokens)?)),
        Lexeme::Identifier(text) => {
            if tokens.sees_second(Mark::Colon) || tokens.is_typedef_name(text) {
                return Ok(Some(name_label(alloc, tokens, text)?));
            }
            Ok(None)
        }
        _ => Ok(None),
    }
}

#[tactic(auto, unfolding(pw_parse_grammar::specs::Statements::labels))]
fn labels<'a, P: StmtParts<'a>>(
    alloc: Global,
    parts: &P,
    tokens: &mut Tokens<'a>,
) -> Result<Vec<Label>, Stop>
    requires { P.can_read parts.now }
    ensures { Reads view_label_list (spec.labels (P.limit parts.now) tokens.old) result tokens.new }
{
    let mut found = Vec::new(alloc);
    for _turn in 0..tokens.turns() {
        let Some(label) = label(alloc, parts, tokens)? else {
            return Ok(found);
        };
        found.push(label)?;
    }
    Err(Stop::Fault)
}

/// Reads an expression, which may be left out, and a semicolon (C90 6.6.3).
#[tactic(auto, unfolding(pw_parse_grammar::specs::Statements::expression_stmt, pw_tree::specs::Views::view_stmt))]
fn expression_stmt<'a, P: StmtParts<'a>>(
    alloc: Global,
    parts: &P,
    tokens: &mut Tokens<'a>,
) -> Result<Stmt, Stop>
    requires { P.can_read parts.now }
    ensures { Reads view_stmt (spec.expression_stmt (P.limit parts.now) tokens.old) result tokens.new }
{
    let expression = boxed_expr(alloc, parts, tokens, COMMA)?;
    tokens.expect(Mark::Semicolon)?;
    Ok(Stmt::Expression(Box::into_inner(expression)))
}

#[tactic(auto, unfolding(pw_parse_grammar::specs::Statements::goto_stmt, pw_tree::specs::Views::view_stmt))]
fn goto_stmt(alloc: Global, tokens: &mut Tokens<'_>) -> Result<Stmt, Stop>
    ensures { Reads view_stmt (spec.goto_stmt tokens.old) result tokens.new }
{
    let token = tokens.take_number();
    let label = tokens.identifier(alloc)?;
    tokens.expect(Mark::Semicolon)?;
    Ok(Stmt::Goto { token, label })
}

#[tactic(auto, unfolding(pw_parse_grammar::specs::Statements::continue_stmt, pw_tree::specs::Views::view_stmt))]
fn continue_stmt(tokens: &mut Tokens<'_>) -> Result<Stmt, Stop>
    ensures reads { Reads view_stmt (spec.continue_stmt tokens.old) result tokens.new }
    ensures no_memory { IfErr result (λ stop. stop ≢ Stop.NoMemory) }
{
    let token = tokens.take_number();
    tokens.expect(Mark::Semicolon)?;
    Ok(Stmt::Continue { token })
}

#[tactic(auto, unfolding(pw_parse_grammar::specs::Statements::break_stmt, pw_tree::specs::Views::view_stmt))]
fn break_stmt(tokens: &mut Tokens<'_>) -> Result<Stmt, Stop>
    ensures reads { Reads view_stmt (spec.break_stmt tokens.old) result tokens.new }
    ensures no_memory { IfErr result (λ stop. stop ≢ Stop.NoMemory) }
{
    let token = tokens.take_number();
    tokens.expect(Mark::Semicolon)?;
    Ok(Stmt::Break { token })
}

#[tactic(auto, unfolding(pw_parse_grammar::specs::Statements::empty_stmt, pw_tree::specs::Views::view_stmt))]
fn empty_stmt(tokens: &mut Tokens<'_>) -> Stmt
    ensures { spec.empty_stmt tokens.old ≡ Ok (view_stmt result, tokens.new) }
{
    let token = tokens.take_number();
    Stmt::Empty { token }
}

/// Reads a `return` with its value, which may be left out, and its semicolon (C90 6.6.6.4).
#[tactic(auto, unfolding(pw_parse_grammar::specs::Statements::return_stmt, pw_tree::specs::Views::view_stmt))]
fn return_stmt<'a, P: StmtParts<'a>>(
    alloc: Global,
    parts: &P,
    tokens: &mut Tokens<'a>,
) -> Result<Stmt, Stop>
    requires { P.can_read parts.now }
    ensures { Reads view_stmt (spec.return_stmt (P.limit parts.now) tokens.old) result tokens.new }
{
    let token = tokens.take_number();
    let value = up_to(alloc, parts, tokens, Mark::Semicolon)?;
    Ok(Stmt::Return {
        token,
        value: unboxed(value),
    })
}

/// A statement with the labels before it, if there are any.
#[tactic(auto, unfolding(pw_tree::specs::Views::view_stmt))]
fn with_labels(alloc: Global, labels: Vec<Label>, statement: Stmt) -> Result<Stmt, Stop>
    ensures found { IfOk result (λ s. view_stmt s ≡ spec.with_labels (view_labels labels.items) (view_stmt statement)) }
    ensures stop { IfErr result (λ stop. stop ≡ NoMemory) }
{
    if labels.is_empty() {
        return Ok(statement);
    }
    let statement = Box::new(alloc, statement)?;
    Ok(Stmt::Labeled { labels, statement })
}

#[tactic(auto, unfolding(pw_parse_grammar::specs::Statements::stmt_next))]
fn stmt_next<'a, P: StmtParts<'a>>(
    alloc: Global,
    parts: &P,
    tokens: &mut Tokens<'a>,
) -> Result<Option<Stmt>, Stop>
    requires { P.can_read parts.now }
    ensures { Reads before_stmt (spec.stmt_next (P.limit parts.now) (P.parser parts.now) tokens.old) result tokens.new }
{
    if tokens.sees(Mark::CloseBrace) {
        return Ok(None);
    }
    Ok(Some(parts.stmt(alloc, tokens)?))
}

#[tactic(auto, unfolding(pw_parse_grammar::specs::Statements::stmts))]
fn stmts<'a, P: StmtParts<'a>>(
    alloc: Global,
    parts: &P,
    tokens: &mut Tokens<'a>,
) -> Result<Vec<Stmt>, Stop>
    requires { P.can_read parts.now }
    ensures { Reads view_stmt_list (spec.stmts (P.limit parts.now) (P.parser parts.now) tokens.old) result tokens.new }
{
    let mut found = Vec::new(alloc);
    for _turn in 0..tokens.turns() {
        let Some(stmt) = stmt_next(alloc, parts, tokens)? else {
            return Ok(found);
        };
        found.push(stmt)?;
    }
    Err(Stop::Fault)
}

/// A block, which is a scope of its own (C90 6.6.2).
#[tactic(auto, unfolding(pw_parse_grammar::specs::Statements::block))]
pub fn block<'a, P: StmtParts<'a>>(
    alloc: Global,
    parts: &P,
    tokens: &mut Tokens<'a>,
) -> Result<Block, Stop>
    requires { P.can_read parts.now }
    ensures { Reads view_block (spec.block (P.limit parts.now) (P.parser parts.now) tokens.old) result tokens.new }
{
    let token = tokens.here();
    tokens.expect(Mark::OpenBrace)?;
    let outer = tokens.mark();
    let declarations = parts.declarations(alloc, tokens)?;
    let statements = stmts(alloc, parts, tokens)?;
    tokens.expect(Mark::CloseBrace)?;
    tokens.leave(outer);
    Ok(Block {
        token,
        declarations,
        statements,
    })
}

/// A statement that begins with a keyword and holds others, or an expression statement.
#[tactic(auto, unfolding(pw_parse_grammar::specs::Statements::compound))]
fn compound<'a, P: StmtParts<'a>>(
    alloc: Global,
    parts: &P,
    tokens: &mut Tokens<'a>,
) -> Result<Stmt, Stop>
    requires { P.can_read parts.now }
    ensures { Reads view_stmt (spec.compound (P.limit parts.now) (P.parser parts.now) tokens.old) result tokens.new }
{
    match tokens.peek() {
        Lexeme::Keyword(Keyword::If) => if_stmt(alloc, parts, tokens),
        Lexeme::Keyword(Keyword::Switch) => switch_stmt(alloc, parts, tokens),
        Lexeme::Keyword(Keyword::While) => while_stmt(alloc, parts, tokens),
        Lexeme::Keyword(Keyword::Do) => do_stmt(alloc, parts, tokens),
        Lexeme::Keyword(Keyword::For) => for_stmt(alloc, parts, tokens),
        _ => expression_stmt(alloc, parts, tokens),
    }
}

/// A block as a statement.
fn block_stmt(block: Block) -> Stmt
    ensures { view_stmt result ≡ Compound (view_block block) }
{
    statements_show_their_lists();
    Stmt::Block(block)
}

/// A statement without labels.
#[tactic(auto, unfolding(pw_parse_grammar::specs::Statements::unlabeled))]
fn unlabeled<'a, P: StmtParts<'a>>(
    alloc: Global,
    parts: &P,
    tokens: &mut Tokens<'a>,
) -> Result<Stmt, Stop>
    requires { P.can_read parts.now }
    ensures { Reads view_stmt (spec.unlabeled (P.limit parts.now) (P.parser parts.now) tokens.old) result tokens.new }
{
    match tokens.peek() {
        Lexeme::Mark(Mark::OpenBrace) => Ok(block_stmt(block(alloc, parts, tokens)?)),
        Lexeme::Mark(Mark::Semicolon) => Ok(empty_stmt(tokens)),
        Lexeme::Keyword(Keyword::Goto) => goto_stmt(alloc, tokens),
        Lexeme::Keyword(Keyword::Continue) => continue_stmt(tokens),
        Lexeme::Keyword(Keyword::Break) => break_stmt(tokens),
        Lexeme::Keyword(Keyword::Return) => return_stmt(alloc, parts, tokens),
        _ => compound(alloc, parts, tokens),
    }
}

/// Reads a statement by its first token (C90 6.6).
#[tactic(auto, unfolding(pw_parse_grammar::specs::Statements::stmt_of))]
pub fn stmt_of<'a, P: StmtParts<'a>>(
    alloc: Global,
    parts: &P,
    tokens: &mut Tokens<'a>,
) -> Result<Stmt, Stop>
    requires { P.can_read parts.now }
    ensures { Reads view_stmt (spec.stmt_of (P.limit parts.now) (P.parser parts.now) tokens.old) result tokens.new }
{
    let labels = labels(alloc, parts, tokens)?;
    let statement = unlabeled(alloc, parts, tokens)?;
    with_labels(alloc, labels, statement)
}
