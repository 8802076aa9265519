//! Expressions and type names (C90 6.3, 6.4, 6.5.5).

ghost use Rattle.std.specs.Prelude.{◌≡◌, ◌≤◌, nat_le, Ok, IfOk, IfErr};
ghost use Rattle.pw_parse_grammar.specs.Expressions as spec;
ghost use Rattle.pw_parse_cursor.specs.Reads.{Reads};
ghost use Rattle.pw_parse_expr.specs.Views.{argument_first, before_operation, before_postfix, before_word, view_argument_list, view_operation_list, view_postfix_list, view_type_name, view_word_list};
ghost use Rattle.pw_parse_cursor.specs.declared.stop.Stop.TheVariants.{NoMemory};
ghost use Rattle.pw_tree.specs.Levels.{level, unary};
ghost use Rattle.pw_tree.specs.Views.{view_expr, view_operations, view_postfix, view_postfixes};

use pw_parse_cursor::{
    ASSIGNMENT, CAST, COMMA, CONDITIONAL, SmallerParts, Stop, Tokens, UNARY, assigns, boxed_expr,
    has_type, opens_type_name, operand_level, operator_at, prefix_operator, some_specifiers,
};
use pw_parse_grammar::Place;
use pw_tree::{
    Access, AssignOperator, Expr, Keyword, Lexeme, Mark, Operation, PostfixOperation, StepOperator,
    TypeName, UnaryOperator, Word, expressions_show_their_lists,
};
use std::alloc::Global;

/// A string literal, if one stands next.
#[tactic(auto, unfolding(pw_parse_grammar::specs::Expressions::string))]
fn string(alloc: Global, tokens: &mut Tokens<'_>) -> Result<Option<Word>, Stop>
    ensures { Reads before_word (spec.string tokens.old) result tokens.new }
{
    match tokens.peek() {
        Lexeme::Text(text) => Ok(Some(tokens.word(alloc, text)?)),
        _ => Ok(None),
    }
}

/// String literals that stand one behind another (C90 6.1.4).
#[tactic(auto, unfolding(pw_parse_grammar::specs::Expressions::strings))]
fn strings(alloc: Global, tokens: &mut Tokens<'_>) -> Result<Vec<Word>, Stop>
    ensures { Reads view_word_list (spec.strings tokens.old) result tokens.new }
{
    let mut found = Vec::new(alloc);
    for _turn in 0..tokens.turns() {
        let Some(word) = string(alloc, tokens)? else {
            return Ok(found);
        };
        found.push(word)?;
    }
    Err(Stop::Fault)
}

/// `++` or `--` behind an operand.
#[tactic(auto, unfolding(pw_parse_grammar::specs::Expressions::step_behind, pw_tree::specs::Views::view_expr))]
fn step_behind(tokens: &mut Tokens<'_>, operator: StepOperator) -> PostfixOperation
    ensures { spec.step_behind operator tokens.old ≡ Ok (view_postfix result, tokens.new) }
{
    let token = tokens.take_number();
    PostfixOperation::Step { token, operator }
}

/// An expression with what stands behind it, if anything does.
fn with_postfixes(
    alloc: Global,
    operand: Expr,
    operations: Vec<PostfixOperation>,
) -> Result<Expr, Stop>
    ensures found { IfOk result (λ e. view_expr e ≡ spec.with_postfixes (view_expr operand) (view_postfixes operations.items)) }
    ensures stop { IfErr result (λ stop. stop ≡ NoMemory) }
{
    if operations.is_empty() {
        return Ok(operand);
    }
    let operand = Box::new(alloc, operand)?;
    expressions_show_their_lists();
    Ok(Expr::Postfix {
        operand,
        operations,
    })
}

/// An expression with the operators behind it, if there are any.
fn with_operations(alloc: Global, first: Expr, rest: Vec<Operation>) -> Result<Expr, Stop>
    ensures found { IfOk result (λ e. view_expr e ≡ spec.with_operations (view_expr first) (view_operations rest.items)) }
    ensures stop { IfErr result (λ stop. stop ≡ NoMemory) }
{
    if rest.is_empty() {
        return Ok(first);
    }
    let first = Box::new(alloc, first)?;
    expressions_show_their_lists();
    Ok(Expr::Chain { first, rest })
}

/// An expression that may stand before an operator of assignment.
#[tactic(auto, unfolding(pw_tree::specs::Views::view_expr))]
fn is_unary(expr: &Expr) -> bool
    ensures { result ≡ nat_le (level (view_expr expr.now)) unary }
{
    match expr {
        Expr::Cast { .. } | Expr::Conditional { .. } | Expr::Assign { .. } => false,
        Expr::Chain { rest, .. } => {
            expressions_show_their_lists();
            rest.is_empty()
        }
        _ => true,
    }
}

/// Reads a type name: specifiers, and a declarator without a name (C90 6.5.5).
#[tactic(auto, unfolding(pw_parse_grammar::specs::Expressions::type_name))]
fn type_name<'a, P: SmallerParts<'a>>(
    alloc: Global,
    parts: &P,
    tokens: &mut Tokens<'a>,
) -> Result<Box<TypeName>, Stop>
    requires { P.can_read parts.now }
    ensures { Reads view_type_name (spec.type_name (P.parsers parts.now) tokens.old) result tokens.new }
{
    let specifiers = some_specifiers(alloc, parts, tokens, false)?;
    let typed = has_type(&specifiers);
    let declared = parts.declarator(alloc, tokens, Place::Nameless, typed)?;
    let named = TypeName {
        specifiers,
        declarator: declared.tree,
    };
    Ok(Box::new(alloc, named)?)
}

/// A type name in parentheses, from the `(` on.
#[tactic(auto, unfolding(pw_parse_grammar::specs::Expressions::enclosed_type_name))]
fn enclosed_type_name<'a, P: SmallerParts<'a>>(
    alloc: Global,
    parts: &P,
    tokens: &mut Tokens<'a>,
) -> Result<Box<TypeName>, Stop>
    requires { P.can_read parts.now }
    ensures { Reads view_type_name (spec.enclosed_type_name (P.parsers parts.now) tokens.old) result tokens.new }
{
    tokens.expect(Mark::OpenParen)?;
    let named = type_name(alloc, parts, tokens)?;
    tokens.expect(Mark::CloseParen)?;
    Ok(named)
}

/// Reads an expression in parentheses (C90 6.3.1).
#[tactic(auto, unfolding(pw_parse_grammar::specs::Expressions::parenthesized, pw_tree::specs::Views::view_expr))]
fn parenthesized<'a, P: SmallerParts<'a>>(
    alloc: Global,
    parts: &P,
    tokens: &mut Tokens<'a>,
) -> Result<Expr, Stop>
    requires { P.can_read parts.now }
    ensures { Reads view_expr (spec.parenthesized (P.parsers parts.now) tokens.old) result tokens.new }
{
    let token = tokens.take_number();
    let inner = boxed_expr(alloc, parts, tokens, COMMA)?;
    tokens.expect(Mark::CloseParen)?;
    Ok(Expr::Paren { token, inner })
}

/// Reads a primary expression: an identifier, a constant, strings, or an expression in parentheses (C90 6.3.1).
#[tactic(auto, unfolding(pw_parse_grammar::specs::Expressions::primary, pw_tree::specs::Views::view_expr))]
fn primary<'a, P: SmallerParts<'a>>(
    alloc: Global,
    parts: &P,
    tokens: &mut Tokens<'a>,
) -> Result<Expr, Stop>
    requires { P.can_read parts.now }
    ensures { Reads view_expr (spec.primary (P.parsers parts.now) tokens.old) result tokens.new }
{
    match tokens.peek() {
        Lexeme::Identifier(_) => Ok(Expr::Identifier(tokens.ordinary(alloc)?)),
        Lexeme::Number(text) => Ok(Expr::Number(tokens.word(alloc, text)?)),
        Lexeme::Floating(text) => Ok(Expr::Floating(tokens.word(alloc, text)?)),
        Lexeme::Character(text) => Ok(Expr::Character(tokens.word(alloc, text)?)),
        Lexeme::Wide(text) => Ok(Expr::Wide(tokens.word(alloc, text)?)),
        Lexeme::Text(_) => Ok(Expr::Strings(strings(alloc, tokens)?)),
        Lexeme::Mark(Mark::OpenParen) => parenthesized(alloc, parts, tokens),
        _ => Err(Stop::Fault),
    }
}

#[tactic(auto, unfolding(pw_parse_grammar::specs::Expressions::argument))]
fn argument<'a, P: SmallerParts<'a>>(
    alloc: Global,
    parts: &P,
    tokens: &mut Tokens<'a>,
) -> Result<Expr, Stop>
    requires { P.can_read parts.now }
    ensures { Reads argument_first (spec.argument (P.parsers parts.now) tokens.old) result tokens.new }
{
    parts.expr(alloc, tokens, ASSIGNMENT)
}

#[tactic(auto, unfolding(pw_parse_grammar::specs::Expressions::some_arguments))]
fn some_arguments<'a, P: SmallerParts<'a>>(
    alloc: Global,
    parts: &P,
    tokens: &mut Tokens<'a>,
) -> Result<Vec<Expr>, Stop>
    requires { P.can_read parts.now }
    ensures { Reads view_argument_list (spec.some_arguments (P.parsers parts.now) tokens.old) result tokens.new }
{
    let mut found = Vec::new(alloc);
    for _turn in 0..tokens.turns() {
        let argument = argument(alloc, parts, tokens)?;
        found.push(argument)?;
        if !tokens.eat(Mark::Comma) {
            return Ok(found);
        }
    }
    Err(Stop::Fault)
}

#[tactic(auto, unfolding(pw_parse_grammar::specs::Expressions::arguments))]
fn arguments<'a, P: SmallerParts<'a>>(
    alloc: Global,
    parts: &P,
    tokens: &mut Tokens<'a>,
) -> Result<Vec<Expr>, Stop>
    requires { P.can_read parts.now }
    ensures { Reads view_argument_list (spec.arguments (P.parsers parts.now) tokens.old) result tokens.new }
{
    if tokens.sees(Mark::CloseParen) {
        return Ok(Vec::new(alloc));
    }
    some_arguments(alloc, parts, tokens)
}

#[tactic(auto, unfolding(pw_parse_grammar::specs::Expressions::index, pw_tree::specs::Views::view_expr))]
fn index<'a, P: SmallerParts<'a>>(
    alloc: Global,
    parts: &P,
    tokens: &mut Tokens<'a>,
) -> Result<PostfixOperation, Stop>
    requires { P.can_read parts.now }
    ensures { Reads view_postfix (spec.index (P.parsers parts.now) tokens.old) result tokens.new }
{
    let token = tokens.take_number();
    let index = parts.expr(alloc, tokens, COMMA)?;
    tokens.expect(Mark::CloseBracket)?;
    Ok(PostfixOperation::Index { token, index })
}

#[tactic(auto, unfolding(pw_parse_grammar::specs::Expressions::call))]
fn call<'a, P: SmallerParts<'a>>(
    alloc: Global,
    parts: &P,
    tokens: &mut Tokens<'a>,
) -> Result<PostfixOperation, Stop>
    requires { P.can_read parts.now }
    ensures { Reads view_postfix (spec.call (P.parsers parts.now) tokens.old) result tokens.new }
{
    let token = tokens.take_number();
    let arguments = arguments(alloc, parts, tokens)?;
    tokens.expect(Mark::CloseParen)?;
    expressions_show_their_lists();
    Ok(PostfixOperation::Call { token, arguments })
}

#[tactic(auto, unfolding(pw_parse_grammar::specs::Expressions::select, pw_tree::specs::Views::view_expr))]
fn select<'a, P: SmallerParts<'a>>(
    alloc: Global,
    parts: &P,
    tokens: &mut Tokens<'a>,
    access: Access,
) -> Result<PostfixOperation, Stop>
    requires { P.can_read parts.now }
    ensures { Reads view_postfix (spec.select (P.parsers parts.now) access tokens.old) result tokens.new }
{
    let token = tokens.take_number();
    let name = tokens.identifier(alloc)?;
    Ok(PostfixOperation::Member {
        token,
        access,
        name,
    })
}

#[tactic(auto, unfolding(pw_parse_grammar::specs::Expressions::postfix_operation))]
fn postfix_operation<'a, P: SmallerParts<'a>>(
    alloc: Global,
    parts: &P,
    tokens: &mut Tokens<'a>,
) -> Result<Option<PostfixOperation>, Stop>
    requires { P.can_read parts.now }
    ensures { Reads before_postfix (spec.postfix_operation (P.parsers parts.now) tokens.old) result tokens.new }
{
    match tokens.peek() {
        Lexeme::Mark(Mark::OpenBracket) => Ok(Some(index(alloc, parts, tokens)?)),
        Lexeme::Mark(Mark::OpenParen) => Ok(Some(call(alloc, parts, tokens)?)),
        Lexeme::Mark(Mark::Dot) => Ok(Some(select(alloc, parts, tokens, Access::Dot)?)),
        Lexeme::Mark(Mark::Arrow) => Ok(Some(select(alloc, parts, tokens, Access::Arrow)?)),
        Lexeme::Mark(Mark::Increment) => Ok(Some(step_behind(tokens, StepOperator::Increment))),
        Lexeme::Mark(Mark::Decrement) => Ok(Some(step_behind(tokens, StepOperator::Decrement))),
        _ => Ok(None),
    }
}

#[tactic(auto, unfolding(pw_parse_grammar::specs::Expressions::postfixes))]
fn postfixes<'a, P: SmallerParts<'a>>(
    alloc: Global,
    parts: &P,
    tokens: &mut Tokens<'a>,
) -> Result<Vec<PostfixOperation>, Stop>
    requires { P.can_read parts.now }
    ensures { Reads view_postfix_list (spec.postfixes (P.parsers parts.now) tokens.old) result tokens.new }
{
    let mut found = Vec::new(alloc);
    for _turn in 0..tokens.turns() {
        let Some(operation) = postfix_operation(alloc, parts, tokens)? else {
            return Ok(found);
        };
        found.push(operation)?;
    }
    Err(Stop::Fault)
}

/// Reads a primary expression and what stands behind it: subscripts, calls, members, `++` and `--` (C90 6.3.2).
#[tactic(auto, unfolding(pw_parse_grammar::specs::Expressions::postfix_expr))]
fn postfix_expr<'a, P: SmallerParts<'a>>(
    alloc: Global,
    parts: &P,
    tokens: &mut Tokens<'a>,
) -> Result<Expr, Stop>
    requires { P.can_read parts.now }
    ensures { Reads view_expr (spec.postfix_expr (P.parsers parts.now) tokens.old) result tokens.new }
{
    let operand = primary(alloc, parts, tokens)?;
    let operations = postfixes(alloc, parts, tokens)?;
    with_postfixes(alloc, operand, operations)
}

#[tactic(auto, unfolding(pw_parse_grammar::specs::Expressions::operated, pw_tree::specs::Views::view_expr))]
fn operated<'a, P: SmallerParts<'a>>(
    alloc: Global,
    parts: &P,
    tokens: &mut Tokens<'a>,
    operator: UnaryOperator,
) -> Result<Expr, Stop>
    requires { P.can_read parts.now }
    ensures { Reads view_expr (spec.operated (P.parsers parts.now) operator tokens.old) result tokens.new }
{
    let token = tokens.take_number();
    let operand = boxed_expr(alloc, parts, tokens, operand_level(operator))?;
    Ok(Expr::Unary {
        token,
        operator,
        operand,
    })
}

/// The size of a type, or of an expression (C90 6.3.3.4).
#[tactic(auto, unfolding(pw_parse_grammar::specs::Expressions::size, pw_tree::specs::Views::view_expr))]
fn size<'a, P: SmallerParts<'a>>(
    alloc: Global,
    parts: &P,
    tokens: &mut Tokens<'a>,
) -> Result<Expr, Stop>
    requires { P.can_read parts.now }
    ensures { Reads view_expr (spec.size (P.parsers parts.now) tokens.old) result tokens.new }
{
    let token = tokens.take_number();
    if opens_type_name(tokens) {
        let named = enclosed_type_name(alloc, parts, tokens)?;
        expressions_show_their_lists();
        return Ok(Expr::SizeofType { token, named });
    }
    let operand = boxed_expr(alloc, parts, tokens, UNARY)?;
    Ok(Expr::Unary {
        token,
        operator: UnaryOperator::Sizeof,
        operand,
    })
}

#[tactic(auto, unfolding(pw_parse_grammar::specs::Expressions::operated_or_postfix))]
fn operated_or_postfix<'a, P: SmallerParts<'a>>(
    alloc: Global,
    parts: &P,
    tokens: &mut Tokens<'a>,
    operator: Option<UnaryOperator>,
) -> Result<Expr, Stop>
    requires { P.can_read parts.now }
    ensures { Reads view_expr (spec.operated_or_postfix (P.parsers parts.now) operator tokens.old) result tokens.new }
{
    match operator {
        Some(operator) => operated(alloc, parts, tokens, operator),
        None => postfix_expr(alloc, parts, tokens),
    }
}

/// Reads a prefix operator with its operand, or a postfix expression (C90 6.3.3).
#[tactic(auto, unfolding(pw_parse_grammar::specs::Expressions::unary_expr))]
fn unary_expr<'a, P: SmallerParts<'a>>(
    alloc: Global,
    parts: &P,
    tokens: &mut Tokens<'a>,
) -> Result<Expr, Stop>
    requires { P.can_read parts.now }
    ensures { Reads view_expr (spec.unary_expr (P.parsers parts.now) tokens.old) result tokens.new }
{
    match tokens.peek() {
        Lexeme::Mark(mark) => operated_or_postfix(alloc, parts, tokens, prefix_operator(mark)),
        Lexeme::Keyword(Keyword::Sizeof) => size(alloc, parts, tokens),
        _ => postfix_expr(alloc, parts, tokens),
    }
}

#[tactic(auto, unfolding(pw_parse_grammar::specs::Expressions::cast_to))]
fn cast_to<'a, P: SmallerParts<'a>>(
    alloc: Global,
    parts: &P,
    tokens: &mut Tokens<'a>,
) -> Result<Expr, Stop>
    requires { P.can_read parts.now }
    ensures { Reads view_expr (spec.cast_to (P.parsers parts.now) tokens.old) result tokens.new }
{
    let token = tokens.here();
    let named = enclosed_type_name(alloc, parts, tokens)?;
    let operand = boxed_expr(alloc, parts, tokens, CAST)?;
    expressions_show_their_lists();
    Ok(Expr::Cast {
        token,
        named,
        operand,
    })
}

/// Reads a cast with its operand, or a unary expression (C90 6.3.4).
#[tactic(auto, unfolding(pw_parse_grammar::specs::Expressions::cast_expr))]
fn cast_expr<'a, P: SmallerParts<'a>>(
    alloc: Global,
    parts: &P,
    tokens: &mut Tokens<'a>,
) -> Result<Expr, Stop>
    requires { P.can_read parts.now }
    ensures { Reads view_expr (spec.cast_expr (P.parsers parts.now) tokens.old) result tokens.new }
{
    if opens_type_name(tokens) {
        cast_to(alloc, parts, tokens)
    } else {
        unary_expr(alloc, parts, tokens)
    }
}

/// An operator of a level and its operand, if one stands next.
#[tactic(auto, unfolding(pw_parse_grammar::specs::Expressions::operation))]
fn operation<'a, P: SmallerParts<'a>>(
    alloc: Global,
    parts: &P,
    tokens: &mut Tokens<'a>,
    level: u8,
) -> Result<Option<Operation>, Stop>
    requires { P.can_read parts.now }
    ensures { Reads before_operation (spec.operation (P.parsers parts.now) level tokens.old) result tokens.new }
{
    let Some(operator) = operator_at(level, tokens.peek()) else {
        return Ok(None);
    };
    let token = tokens.take_number();
    let operand = parts.expr(alloc, tokens, level.saturating_sub(1))?;
    Ok(Some(Operation {
        token,
        operator,
        operand,
    }))
}

#[tactic(auto, unfolding(pw_parse_grammar::specs::Expressions::operations))]
fn operations<'a, P: SmallerParts<'a>>(
    alloc: Global,
    parts: &P,
    tokens: &mut Tokens<'a>,
    level: u8,
) -> Result<Vec<Operation>, Stop>
    requires { P.can_read parts.now }
    ensures { Reads view_operation_list (spec.operations (P.parsers parts.now) level tokens.old) result tokens.new }
{
    let mut found = Vec::new(alloc);
    for _turn in 0..tokens.turns() {
        let Some(operation) = operation(alloc, parts, tokens, level)? else {
            return Ok(found);
        };
        found.push(operation)?;
    }
    Err(Stop::Fault)
}

#[tactic(auto, unfolding(pw_parse_grammar::specs::Expressions::conditional_behind, pw_tree::specs::Views::view_expr))]
fn conditional_behind<'a, P: SmallerParts<'a>>(
    alloc: Global,
    parts: &P,
    tokens: &mut Tokens<'a>,
    condition: Expr,
) -> Result<Expr, Stop>
    requires { P.can_read parts.now }
    ensures { Reads view_expr (spec.conditional_behind (P.parsers parts.now) (view_expr condition) tokens.old) result tokens.new }
{
    let condition = Box::new(alloc, condition)?;
    let token = tokens.take_number();
    let chosen = boxed_expr(alloc, parts, tokens, COMMA)?;
    tokens.expect(Mark::Colon)?;
    let otherwise = boxed_expr(alloc, parts, tokens, CONDITIONAL)?;
    Ok(Expr::Conditional {
        token,
        condition,
        chosen,
        otherwise,
    })
}

/// Reads what stands behind a condition: a `?` with its two expressions, or nothing (C90 6.3.15).
#[tactic(auto, unfolding(pw_parse_grammar::specs::Expressions::condition_of))]
fn condition_of<'a, P: SmallerParts<'a>>(
    alloc: Global,
    parts: &P,
    tokens: &mut Tokens<'a>,
    condition: Expr,
) -> Result<Expr, Stop>
    requires { P.can_read parts.now }
    ensures { Reads view_expr (spec.condition_of (P.parsers parts.now) (view_expr condition) tokens.old) result tokens.new }
{
    if tokens.sees(Mark::Question) {
        conditional_behind(alloc, parts, tokens, condition)
    } else {
        Ok(condition)
    }
}

#[tactic(auto, unfolding(pw_parse_grammar::specs::Expressions::assigned, pw_tree::specs::Views::view_expr))]
fn assigned<'a, P: SmallerParts<'a>>(
    alloc: Global,
    parts: &P,
    tokens: &mut Tokens<'a>,
    operator: AssignOperator,
    left: Expr,
) -> Result<Expr, Stop>
    requires { P.can_read parts.now }
    ensures { Reads view_expr (spec.assigned (P.parsers parts.now) (view_expr left) operator tokens.old) result tokens.new }
{
    let left = Box::new(alloc, left)?;
    let token = tokens.take_number();
    let right = boxed_expr(alloc, parts, tokens, ASSIGNMENT)?;
    Ok(Expr::Assign {
        token,
        operator,
        left,
        right,
    })
}

/// Reads what stands behind a left side: an assignment operator with the right side, or nothing (C90 6.3.16).
#[tactic(auto, unfolding(pw_parse_grammar::specs::Expressions::assignment_to))]
fn assignment_to<'a, P: SmallerParts<'a>>(
    alloc: Global,
    parts: &P,
    tokens: &mut Tokens<'a>,
    left: Expr,
) -> Result<Expr, Stop>
    requires { P.can_read parts.now }
    ensures { Reads view_expr (spec.assignment_to (P.parsers parts.now) (view_expr left) tokens.old) result tokens.new }
{
    let Some(operator) = assigns(tokens.peek()) else {
        return Ok(left);
    };
    if is_unary(&left) {
        assigned(alloc, parts, tokens, operator, left)
    } else {
        Err(Stop::Fault)
    }
}

/// What an expression of the level below goes on with at a level from 4 on.
#[tactic(auto, unfolding(pw_parse_grammar::specs::Expressions::goes_on))]
fn goes_on<'a, P: SmallerParts<'a>>(
    alloc: Global,
    parts: &P,
    tokens: &mut Tokens<'a>,
    level: u8,
    left: Expr,
) -> Result<Expr, Stop>
    requires { P.can_read parts.now }
    ensures { Reads view_expr (spec.goes_on (P.parsers parts.now) level (view_expr left) tokens.old) result tokens.new }
{
    if level == CONDITIONAL {
        return condition_of(alloc, parts, tokens, left);
    }
    if level == ASSIGNMENT {
        return assignment_to(alloc, parts, tokens, left);
    }
    let operations = operations(alloc, parts, tokens, level)?;
    with_operations(alloc, left, operations)
}

/// An expression of a level, or one that binds more tightly.
#[tactic(auto, unfolding(pw_parse_grammar::specs::Expressions::expr_of))]
pub fn expr_of<'a, P: SmallerParts<'a>>(
    alloc: Global,
    parts: &P,
    tokens: &mut Tokens<'a>,
    level: u8,
) -> Result<Expr, Stop>
    requires { P.can_read parts.now }
    ensures { Reads view_expr (spec.expr_of (P.parsers parts.now) level tokens.old) result tokens.new }
{
    if level <= UNARY {
        return unary_expr(alloc, parts, tokens);
    }
    let mut found = cast_expr(alloc, parts, tokens)?;
    for below in CAST..level {
        found = goes_on(alloc, parts, tokens, below + 1, found)?;
    }
    Ok(found)
}
