//! How deep a text goes.

ghost use Rattle.std.specs.Prelude.{◌≡◌, ◌≤◌, ◌<◌, ◌+◌, if◌then◌else◌, All, drop, length, map, nat_lt};
ghost use Rattle.pw_token.specs.Limits.{nest_limit};
ghost use Rattle.std.specs.List.{position_from};
ghost use Rattle.pw_token.specs.Levels.{IsSound, levels_of};
ghost use Rattle.pw_token.specs.Nesting.{State, begins_operand, effect, ends_do, ends_statement, first_role, innermost_is, is_closing, is_else, is_question, nest_at, nests_of, operand_after, outer_of, with_control, with_expression, without_bracket};
ghost use Rattle.pw_token.specs.Roles.{role_in};
ghost use Rattle.pw_token.specs.Tokenization.{IsLexed};

use crate::levels::{Levels, Opener};
use crate::roles::{Role, role_in};
use crate::token::Token;

/// The deepest nesting that a text may have.
pub const NEST_LIMIT: usize = 200;

fn is_else(role: Role) -> bool
    ensures { result ≡ is_else role }
{
    matches!(role, Role::Else)
}

fn begins_operand(role: Role) -> bool
    ensures { result ≡ begins_operand role }
{
    matches!(
        role,
        Role::Operand | Role::OpenParen | Role::Step | Role::Unary
    )
}

fn ends_statement(role: Role) -> bool
    ensures { result ≡ ends_statement role }
{
    matches!(role, Role::Semicolon | Role::CloseBrace)
}

fn operand_after(role: Role, operand: bool) -> bool
    ensures { result ≡ operand_after role operand }
{
    match role {
        Role::Operand | Role::CloseParen | Role::CloseBracket => true,
        Role::Step => operand,
        _ => false,
    }
}

/// A `while` here ends a `do`.
fn ends_do(levels: &Levels, before: Role, operand: bool) -> bool
    ensures { result ≡ ends_do (record { before = before; operand = operand; levels = levels_of levels.now }) }
{
    ends_statement(before) && levels.is_in_do()
}

fn close_question(levels: &mut Levels)
    requires sound { IsSound levels.old }
    requires low { levels.old.nest ≤ nest_limit + 1 }
    ensures sound { IsSound levels.new }
    ensures levels { levels_of levels.new ≡ (if innermost_is is_question (levels_of levels.old) then with_expression (outer_of (levels_of levels.old)) else levels_of levels.old) }
    ensures rise { levels.new.nest ≤ levels.old.nest + 1 }
{
    if levels.is_in_question() {
        levels.close();
        levels.add_expression();
    }
}

fn close_paren(levels: &mut Levels, next: Role)
    requires sound { IsSound levels.old }
    requires low { levels.old.nest ≤ nest_limit + 1 }
    ensures sound { IsSound levels.new }
    ensures levels { levels_of levels.new ≡ (if begins_operand next then with_expression (without_bracket (levels_of levels.old)) else without_bracket (levels_of levels.old)) }
    ensures rise { levels.new.nest ≤ levels.old.nest + 1 }
{
    levels.close_bracket();
    if begins_operand(next) {
        levels.add_expression();
    }
}

fn add_unless(levels: &mut Levels, operand: bool)
    requires sound { IsSound levels.old }
    requires low { levels.old.nest ≤ nest_limit + 1 }
    ensures sound { IsSound levels.new }
    ensures levels { levels_of levels.new ≡ (if operand then levels_of levels.old else with_expression (levels_of levels.old)) }
    ensures rise { levels.new.nest ≤ levels.old.nest + 1 }
{
    if !operand {
        levels.add_expression();
    }
}

fn begin_if(levels: &mut Levels, before: Role)
    requires sound { IsSound levels.old }
    requires low { levels.old.nest ≤ nest_limit + 1 }
    ensures sound { IsSound levels.new }
    ensures levels { levels_of levels.new ≡ (if is_else before then levels_of levels.old else with_control (levels_of levels.old)) }
    ensures rise { levels.new.nest ≤ levels.old.nest + 1 }
{
    if !is_else(before) {
        levels.add_control();
    }
}

fn meet_while(levels: &mut Levels, before: Role, operand: bool)
    requires sound { IsSound levels.old }
    requires low { levels.old.nest ≤ nest_limit + 1 }
    ensures sound { IsSound levels.new }
    ensures levels { levels_of levels.new ≡ (if ends_do (record { before = before; operand = operand; levels = levels_of levels.old }) then outer_of (levels_of levels.old) else with_control (levels_of levels.old)) }
    ensures rise { levels.new.nest ≤ levels.old.nest + 1 }
{
    if ends_do(levels, before, operand) {
        levels.close();
    } else {
        levels.add_control();
    }
}

/// What a token does to the open levels.
fn take(levels: &mut Levels, role: Role, next: Role, before: Role, operand: bool)
    requires sound { IsSound levels.old }
    requires low { levels.old.nest ≤ nest_limit + 1 }
    ensures sound { IsSound levels.new }
    ensures levels { levels_of levels.new ≡ effect role next (record { before = before; operand = operand; levels = levels_of levels.old }) }
    ensures rise { levels.new.nest ≤ levels.old.nest + 1 }
{
    match role {
        Role::OpenParen | Role::Open => levels.open(Opener::Bracket),
        Role::Question => levels.open(Opener::Question),
        Role::Do => levels.open(Opener::Do),
        Role::Colon => close_question(levels),
        Role::CloseParen => close_paren(levels, next),
        Role::CloseBracket => levels.close_bracket(),
        Role::CloseBrace => {
            levels.close_bracket();
            levels.end_statement(is_else(next));
        }
        Role::Semicolon => {
            levels.close_questions();
            levels.end_statement(is_else(next));
        }
        Role::Unary | Role::Step => add_unless(levels, operand),
        Role::Assignment => levels.add_expression(),
        Role::If => begin_if(levels, before),
        Role::Loop => levels.add_control(),
        Role::While => meet_while(levels, before, operand),
        Role::Comma => levels.clear_expressions(),
        Role::Operand | Role::Else | Role::Other => {}
    }
}

fn is_closing(levels: &Levels, role: Role, before: Role, operand: bool) -> bool
    ensures { result ≡ is_closing role (record { before = before; operand = operand; levels = levels_of levels.now }) }
{
    match role {
        Role::CloseParen | Role::CloseBracket | Role::CloseBrace => true,
        Role::Colon => levels.is_in_question(),
        Role::While => ends_do(levels, before, operand),
        _ => false,
    }
}

/// Takes a token, and answers the nesting at it.
fn step(levels: &mut Levels, role: Role, next: Role, before: Role, operand: bool) -> usize
    requires sound { IsSound levels.old }
    requires low { levels.old.nest ≤ nest_limit + 1 }
    ensures sound { IsSound levels.new }
    ensures levels { levels_of levels.new ≡ effect role next (record { before = before; operand = operand; levels = levels_of levels.old }) }
    ensures nest { result ≡ nest_at role next (record { before = before; operand = operand; levels = levels_of levels.old }) }
    ensures low { result ≤ nest_limit → levels.new.nest ≤ nest_limit + 1 }
{
    let nest = levels.nest;
    if is_closing(levels, role, before, operand) {
        take(levels, role, next, before, operand);
        return nest;
    }
    take(levels, role, next, before, operand);
    levels.nest
}

fn role_at(text: &[u8], tokens: &[Token], at: usize) -> Role
    requires { All (λ t. t.at + t.len ≤ length text.now) tokens.now }
    ensures { result ≡ first_role (map (role_in text.now) (drop at tokens.now)) }
{
    if at < tokens.len() {
        role_in(text, &tokens[at])
    } else {
        Role::Other
    }
}

/// The first token whose nesting exceeds the limit, counted from 1.
pub fn nest_fault(text: &[u8], tokens: &[Token]) -> Option<usize>
    requires { IsLexed text.now tokens.now }
    ensures { result ≡ position_from (λ nest. nat_lt nest_limit nest) 1 (nests_of text.now tokens.now) }
{
    let mut levels = Levels::new();
    let mut before = Role::Other;
    let mut operand = false;
    let mut role = role_at(text, tokens, 0);
    for index in 0..tokens.len() {
        let next = role_at(text, tokens, index + 1);
        let nest = step(&mut levels, role, next, before, operand);
        if NEST_LIMIT < nest {
            return Some(index + 1);
        }
        operand = operand_after(role, operand);
        before = role;
        role = next;
    }
    None
}
