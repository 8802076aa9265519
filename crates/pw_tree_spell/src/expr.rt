//! The tokens of expressions (C90 6.3).

ghost use Rattle.std.specs.Prelude.{◌≡◌, ◌∷◌, List, true};
ghost use Rattle.pw_token.specs.declared.symbol.Mark.TheVariants as mark;
ghost use Rattle.pw_tree.specs.Spelling as spell;
ghost use Rattle.pw_tree.specs.Symbols.{Sign, unary_symbol};
ghost use Rattle.pw_tree.specs.Views as view;
ghost use Rattle.pw_tree_spell.specs.Writing.{GoesBefore, HasOperators, Writes};

use crate::spelled::Writer;
use pw_token::TokenKind;
use pw_tree::{
    Expr, Keyword, Mark, Operation, PostfixOperation, TypeName, UnaryOperator,
    expressions_show_their_lists,
};

impl Writer {
    fn unary_operator(&mut self, operator: UnaryOperator)
        ensures { Writes (λ z. unary_symbol operator ∷ z) self.old self.new }
    {
        match operator {
            UnaryOperator::Address => self.mark(Mark::Ampersand),
            UnaryOperator::Dereference => self.mark(Mark::Star),
            UnaryOperator::Plus => self.mark(Mark::Plus),
            UnaryOperator::Minus => self.mark(Mark::Minus),
            UnaryOperator::Complement => self.mark(Mark::Tilde),
            UnaryOperator::Not => self.mark(Mark::Exclamation),
            UnaryOperator::Increment => self.mark(Mark::Increment),
            UnaryOperator::Decrement => self.mark(Mark::Decrement),
            UnaryOperator::Sizeof => self.keyword(Keyword::Sizeof),
        }
    }

    /// The tokens of an expression.
    #[cycle(spell)]
    #[tactic(auto, unfolding(pw_tree::specs::Views::view_expr, pw_tree::specs::Spelling::spell_expr))]
    pub fn expr(&mut self, e: &Expr)
        ensures { Writes (spell.spell_expr (view.view_expr e.now)) self.old self.new }
    {
        expressions_show_their_lists();
        match e {
            Expr::Identifier(word) => self.identifier(word),
            Expr::Number(word) => self.push(TokenKind::Number, &word.text),
            Expr::Floating(word) => self.push(TokenKind::Floating, &word.text),
            Expr::Character(word) => self.push(TokenKind::Character, &word.text),
            Expr::Wide(word) => self.push(TokenKind::Wide, &word.text),
            Expr::Strings(pieces) => self.strings(pieces),
            Expr::Paren { token: _, inner } => {
                self.mark(Mark::OpenParen);
                self.expr(inner);
                self.mark(Mark::CloseParen);
            }
            Expr::Postfix {
                operand,
                operations,
            } => {
                self.expr(operand);
                self.postfixes(operations);
            }
            Expr::SizeofType { token: _, named } => {
                self.keyword(Keyword::Sizeof);
                self.type_in_parens(named);
            }
            Expr::Cast {
                token: _,
                named,
                operand,
            } => {
                self.type_in_parens(named);
                self.expr(operand);
            }
            Expr::Unary { .. }
            | Expr::Chain { .. }
            | Expr::Conditional { .. }
            | Expr::Assign { .. } => self.with_operators(e),
        }
    }

    /// An expression whose operands have operators before or between them.
    #[cycle(spell)]
    #[tactic(auto, unfolding(pw_tree::specs::Views::view_expr, pw_tree::specs::Spelling::spell_expr))]
    fn with_operators(&mut self, e: &Expr)
        requires { HasOperators (view.view_expr e.now) }
        ensures { Writes (spell.spell_expr (view.view_expr e.now)) self.old self.new }
    {
        expressions_show_their_lists();
        match e {
            Expr::Unary {
                token: _,
                operator,
                operand,
            } => {
                self.unary_operator(*operator);
                self.expr(operand);
            }
            Expr::Chain { first, rest } => {
                self.expr(first);
                self.operations(rest);
            }
            Expr::Conditional {
                token: _,
                condition,
                chosen,
                otherwise,
            } => {
                self.expr(condition);
                self.mark(Mark::Question);
                self.expr(chosen);
                self.mark(Mark::Colon);
                self.expr(otherwise);
            }
            Expr::Assign {
                token: _,
                operator,
                left,
                right,
            } => {
                self.expr(left);
                self.mark(operator.mark());
                self.expr(right);
            }
            _ => unreachable!(),
        }
    }

    #[cycle(spell)]
    fn type_in_parens(&mut self, named: &TypeName)
        ensures { Writes (λ z. Sign mark.OpenParen ∷ spell.spell_specifiers (view.view_specifiers named.now.specifiers.items) (spell.spell_declarator (view.view_declarator named.now.declarator) (Sign mark.CloseParen ∷ z))) self.old self.new }
    {
        self.mark(Mark::OpenParen);
        self.specifiers(&named.specifiers);
        self.declarator(&named.declarator);
        self.mark(Mark::CloseParen);
    }

    #[cycle(spell)]
    #[tactic(auto, unfolding(pw_tree::specs::Views::view_expr, pw_tree::specs::Spelling::spell_expr))]
    fn postfixes(&mut self, operations: &[PostfixOperation])
        ensures { Writes (spell.spell_postfixes (view.view_postfixes operations.now)) self.old self.new }
    {
        for operation in operations {
            self.postfix(operation);
        }
    }

    #[cycle(spell)]
    #[tactic(auto, unfolding(pw_tree::specs::Views::view_expr, pw_tree::specs::Spelling::spell_expr))]
    fn postfix(&mut self, operation: &PostfixOperation)
        ensures { GoesBefore spell.spell_postfixes (λ rest. spell.spell_postfixes (view.view_postfix operation.now rest)) self.old self.new }
    {
        expressions_show_their_lists();
        match operation {
            PostfixOperation::Index { token: _, index } => {
                self.mark(Mark::OpenBracket);
                self.expr(index);
                self.mark(Mark::CloseBracket);
            }
            PostfixOperation::Call {
                token: _,
                arguments,
            } => {
                self.mark(Mark::OpenParen);
                self.arguments(arguments);
                self.mark(Mark::CloseParen);
            }
            PostfixOperation::Member {
                token: _,
                access,
                name,
            } => {
                self.mark(access.mark());
                self.identifier(name);
            }
            PostfixOperation::Step { token: _, operator } => self.mark(operator.mark()),
        }
    }

    #[cycle(spell)]
    #[tactic(auto, unfolding(pw_tree::specs::Views::view_expr, pw_tree::specs::Spelling::spell_expr))]
    fn arguments(&mut self, arguments: &[Expr])
        ensures { Writes (spell.spell_arguments true (view.view_arguments arguments.now)) self.old self.new }
    {
        let mut first = true;
        for argument in arguments {
            self.separate(first);
            self.expr(argument);
            first = false;
        }
    }

    #[cycle(spell)]
    #[tactic(auto, unfolding(pw_tree::specs::Views::view_expr, pw_tree::specs::Spelling::spell_expr))]
    fn operations(&mut self, operations: &[Operation])
        ensures { Writes (spell.spell_operations (view.view_operations operations.now)) self.old self.new }
    {
        for operation in operations {
            self.mark(operation.operator.mark());
            self.expr(&operation.operand);
        }
    }
}
