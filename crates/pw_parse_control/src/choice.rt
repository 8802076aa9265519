//! Selection statements (C90 6.6.4).

ghost use Rattle.pw_parse_control.specs.Branches.{branch_turn, view_alternatives};
ghost use Rattle.pw_parse_control.specs.Views.{else_if_first};
ghost use Rattle.pw_parse_cursor.specs.Reads.{Reads};
ghost use Rattle.pw_parse_grammar.specs.Statements as spec;
ghost use Rattle.pw_tree.specs.Views.{view_stmt};

use crate::expressions::{boxed_stmt, condition};
use crate::parts::StmtParts;
use pw_parse_cursor::{Stop, Tokens};
use pw_tree::{ElseIf, Keyword, Stmt, statements_show_their_lists};
use std::alloc::Global;

/// What stands behind a statement of an `if`.
#[derive(Drop)]
enum Branch {
    ElseIf(ElseIf),
    /// The last `else`, if there is one.
    Last(Option<Box<Stmt>>),
}

/// Each `else if` of an `if`, and its last `else`.
#[derive(Drop)]
struct ElseParts {
    else_ifs: Vec<ElseIf>,
    otherwise: Option<Box<Stmt>>,
}

#[tactic(auto, unfolding(pw_parse_grammar::specs::Statements::else_if))]
fn else_if<'a, P: StmtParts<'a>>(
    alloc: Global,
    parts: &P,
    tokens: &mut Tokens<'a>,
) -> Result<ElseIf, Stop>
    requires { P.can_read parts.now }
    ensures { Reads else_if_first (spec.else_if (P.limit parts.now) (P.parser parts.now) tokens.old) result tokens.new }
{
    let token = tokens.take_number();
    let condition = condition(alloc, parts, tokens)?;
    let chosen = parts.stmt(alloc, tokens)?;
    Ok(ElseIf {
        token,
        condition: Box::into_inner(condition),
        chosen,
    })
}

/// An `else` with what stands behind it, if one stands next.
#[tactic(auto, unfolding(pw_parse_grammar::specs::Statements::alternative, pw_parse_grammar::specs::Statements::behind_else))]
fn alternative<'a, P: StmtParts<'a>>(
    alloc: Global,
    parts: &P,
    tokens: &mut Tokens<'a>,
) -> Result<Branch, Stop>
    requires { P.can_read parts.now }
    ensures { Reads branch_turn (spec.alternative (P.limit parts.now) (P.parser parts.now) tokens.old) result tokens.new }
{
    if !tokens.eat_keyword(Keyword::Else) {
        return Ok(Branch::Last(None));
    }
    if tokens.sees_keyword(Keyword::If) {
        Ok(Branch::ElseIf(else_if(alloc, parts, tokens)?))
    } else {
        Ok(Branch::Last(Some(boxed_stmt(alloc, parts, tokens)?)))
    }
}

/// What stands behind the statement of an `if`: each `else if`, and the last `else`.
#[tactic(auto, unfolding(pw_parse_grammar::specs::Statements::alternatives))]
fn alternatives<'a, P: StmtParts<'a>>(
    alloc: Global,
    parts: &P,
    tokens: &mut Tokens<'a>,
) -> Result<ElseParts, Stop>
    requires { P.can_read parts.now }
    ensures { Reads view_alternatives (spec.alternatives (P.limit parts.now) (P.parser parts.now) tokens.old) result tokens.new }
{
    let mut else_ifs = Vec::new(alloc);
    for _turn in 0..tokens.turns() {
        match alternative(alloc, parts, tokens)? {
            Branch::ElseIf(else_if) => else_ifs.push(else_if)?,
            Branch::Last(otherwise) => {
                return Ok(ElseParts {
                    else_ifs,
                    otherwise,
                });
            }
        }
    }
    Err(Stop::Fault)
}

/// Reads an `if` statement with the `else if`s and the `else` directly behind it (C90 6.6.4.1).
#[tactic(auto, unfolding(pw_parse_grammar::specs::Statements::if_stmt))]
pub fn if_stmt<'a, P: StmtParts<'a>>(
    alloc: Global,
    parts: &P,
    tokens: &mut Tokens<'a>,
) -> Result<Stmt, Stop>
    requires { P.can_read parts.now }
    ensures { Reads view_stmt (spec.if_stmt (P.limit parts.now) (P.parser parts.now) tokens.old) result tokens.new }
{
    let token = tokens.take_number();
    let condition = condition(alloc, parts, tokens)?;
    let chosen = boxed_stmt(alloc, parts, tokens)?;
    let ElseParts {
        else_ifs,
        otherwise,
    } = alternatives(alloc, parts, tokens)?;
    statements_show_their_lists();
    Ok(Stmt::If {
        token,
        condition: Box::into_inner(condition),
        chosen,
        else_ifs,
        otherwise,
    })
}

/// Reads a `switch` statement (C90 6.6.4.2).
#[tactic(auto, unfolding(pw_parse_grammar::specs::Statements::switch_stmt, pw_tree::specs::Views::view_stmt))]
pub fn switch_stmt<'a, P: StmtParts<'a>>(
    alloc: Global,
    parts: &P,
    tokens: &mut Tokens<'a>,
) -> Result<Stmt, Stop>
    requires { P.can_read parts.now }
    ensures { Reads view_stmt (spec.switch_stmt (P.limit parts.now) (P.parser parts.now) tokens.old) result tokens.new }
{
    let token = tokens.take_number();
    let value = condition(alloc, parts, tokens)?;
    let body = boxed_stmt(alloc, parts, tokens)?;
    Ok(Stmt::Switch {
        token,
        value: Box::into_inner(value),
        body,
    })
}
