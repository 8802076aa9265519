//! The tokens of statements (C90 6.6).

ghost use Rattle.std.specs.Prelude.{◌≡◌, ◌∷◌, List, true};
ghost use Rattle.pw_token.specs.declared.symbol.Keyword.TheVariants as keyword;
ghost use Rattle.pw_token.specs.declared.symbol.Mark.TheVariants as mark;
ghost use Rattle.pw_tree.specs.Spelling as spell;
ghost use Rattle.pw_tree.specs.Symbols as symbol;
ghost use Rattle.pw_tree.specs.Views as view;
ghost use Rattle.pw_tree_spell.specs.Writing.{Writes, GoesBefore};

use crate::spelled::Writer;
use pw_tree::{Block, ElseIf, Expr, Keyword, Label, Mark, Stmt, Word, statements_show_their_lists};

impl Writer {
    fn optional(&mut self, e: &Option<Expr>)
        ensures { Writes (spell.spell_optional (view.view_optional e.now)) self.old self.new }
    {
        if let Some(e) = e {
            self.expr(e);
        }
    }

    fn label(&mut self, label: &Label)
        ensures { Writes (spell.spell_label (view.view_label label.now)) self.old self.new }
    {
        match label {
            Label::Case { token: _, value } => {
                self.keyword(Keyword::Case);
                self.expr(value);
            }
            Label::Default { token: _ } => self.keyword(Keyword::Default),
            Label::Name(name) => self.identifier(name),
        }
        self.mark(Mark::Colon);
    }

    fn labels(&mut self, labels: &[Label])
        ensures { Writes (spell.spell_labels (view.view_labels labels.now)) self.old self.new }
    {
        for label in labels {
            self.label(label);
        }
    }

    /// A keyword and an expression in parentheses.
    fn head(&mut self, keyword: Keyword, e: &Expr)
        ensures { Writes (λ z. symbol.Reserved keyword ∷ symbol.Sign mark.OpenParen ∷ spell.spell_expr (view.view_expr e.now) (symbol.Sign mark.CloseParen ∷ z)) self.old self.new }
    {
        self.keyword(keyword);
        self.mark(Mark::OpenParen);
        self.expr(e);
        self.mark(Mark::CloseParen);
    }

    #[cycle(stmt)]
    #[tactic(auto, unfolding(pw_tree::specs::Views::view_stmt, pw_tree::specs::Spelling::spell_stmt))]
    fn stmt(&mut self, stmt: &Stmt)
        ensures { Writes (spell.spell_stmt (view.view_stmt stmt.now)) self.old self.new }
    {
        statements_show_their_lists();
        match stmt {
            Stmt::Block(block) => self.block(block),
            Stmt::Expression(value) => self.expression(value),
            Stmt::Empty { token: _ } => self.mark(Mark::Semicolon),
            Stmt::Labeled { labels, statement } => {
                self.labels(labels);
                self.stmt(statement);
            }
            Stmt::If {
                token: _,
                condition,
                chosen,
                else_ifs,
                otherwise,
            } => {
                self.head(Keyword::If, condition);
                self.stmt(chosen);
                self.else_ifs(else_ifs);
                self.otherwise(otherwise);
            }
            Stmt::Switch { value, body, .. } => {
                self.head(Keyword::Switch, value);
                self.stmt(body);
            }
            Stmt::While {
                token: _,
                condition,
                body,
            } => {
                self.head(Keyword::While, condition);
                self.stmt(body);
            }
            Stmt::Do {
                token: _,
                body,
                condition,
            } => {
                self.keyword(Keyword::Do);
                self.stmt(body);
                self.do_end(condition);
            }
            Stmt::For {
                token: _,
                start,
                condition,
                step,
                body,
            } => {
                self.for_head(start, condition, step);
                self.stmt(body);
            }
            Stmt::Goto { token: _, label } => self.goto(label),
            Stmt::Continue { token: _ } => self.keyword_alone(Keyword::Continue),
            Stmt::Break { token: _ } => self.keyword_alone(Keyword::Break),
            Stmt::Return { token: _, value } => self.return_value(value),
        }
    }

    fn expression(&mut self, value: &Expr)
        ensures { Writes (λ z. spell.spell_expr (view.view_expr value.now) (symbol.Sign mark.Semicolon ∷ z)) self.old self.new }
    {
        self.expr(value);
        self.mark(Mark::Semicolon);
    }

    /// What stands behind the statement of a `do`.
    fn do_end(&mut self, condition: &Expr)
        ensures { Writes (λ z. symbol.Reserved keyword.While ∷ symbol.Sign mark.OpenParen ∷ spell.spell_expr (view.view_expr condition.now) (symbol.Sign mark.CloseParen ∷ symbol.Sign mark.Semicolon ∷ z)) self.old self.new }
    {
        self.head(Keyword::While, condition);
        self.mark(Mark::Semicolon);
    }

    fn goto(&mut self, label: &Word)
        ensures { Writes (λ z. symbol.Reserved keyword.Goto ∷ spell.identifier (view.view_word label.now) ∷ symbol.Sign mark.Semicolon ∷ z) self.old self.new }
    {
        self.keyword(Keyword::Goto);
        self.identifier(label);
        self.mark(Mark::Semicolon);
    }

    /// A keyword that is a statement by itself.
    fn keyword_alone(&mut self, keyword: Keyword)
        ensures { Writes (λ z. symbol.Reserved keyword ∷ symbol.Sign mark.Semicolon ∷ z) self.old self.new }
    {
        self.keyword(keyword);
        self.mark(Mark::Semicolon);
    }

    fn return_value(&mut self, value: &Option<Expr>)
        ensures { Writes (λ z. symbol.Reserved keyword.Return ∷ spell.spell_optional (view.view_optional value.now) (symbol.Sign mark.Semicolon ∷ z)) self.old self.new }
    {
        self.keyword(Keyword::Return);
        self.optional(value);
        self.mark(Mark::Semicolon);
    }

    fn for_head(&mut self, start: &Option<Expr>, condition: &Option<Expr>, step: &Option<Expr>)
        ensures { Writes (λ z. symbol.Reserved keyword.For ∷ symbol.Sign mark.OpenParen ∷ spell.spell_optional (view.view_optional start.now) (symbol.Sign mark.Semicolon ∷ spell.spell_optional (view.view_optional condition.now) (symbol.Sign mark.Semicolon ∷ spell.spell_optional (view.view_optional step.now) (symbol.Sign mark.CloseParen ∷ z)))) self.old self.new }
    {
        self.keyword(Keyword::For);
        self.mark(Mark::OpenParen);
        self.optional(start);
        self.mark(Mark::Semicolon);
        self.optional(condition);
        self.mark(Mark::Semicolon);
        self.optional(step);
        self.mark(Mark::CloseParen);
    }

    #[cycle(stmt)]
    #[tactic(auto, unfolding(pw_tree::specs::Views::view_stmt, pw_tree::specs::Spelling::spell_stmt))]
    fn else_ifs(&mut self, else_ifs: &[ElseIf])
        ensures { GoesBefore spell.spell_alternative (λ rest. spell.spell_alternative (view.view_else_ifs else_ifs.now rest)) self.old self.new }
    {
        for else_if in else_ifs {
            self.keyword(Keyword::Else);
            self.head(Keyword::If, &else_if.condition);
            self.stmt(&else_if.chosen);
        }
    }

    #[cycle(stmt)]
    #[tactic(auto, unfolding(pw_tree::specs::Views::view_stmt, pw_tree::specs::Spelling::spell_stmt))]
    fn otherwise(&mut self, otherwise: &Option<Box<Stmt>>)
        ensures { Writes (spell.spell_alternative (view.view_otherwise otherwise.now)) self.old self.new }
    {
        if let Some(otherwise) = otherwise {
            self.keyword(Keyword::Else);
            self.stmt(otherwise);
        }
    }

    /// The tokens of a block: its declarations and its statements in braces.
    #[cycle(stmt)]
    #[tactic(auto, unfolding(pw_tree::specs::Views::view_stmt, pw_tree::specs::Spelling::spell_stmt))]
    pub fn block(&mut self, block: &Block)
        ensures { Writes (spell.spell_block (view.view_block block.now)) self.old self.new }
    {
        self.mark(Mark::OpenBrace);
        self.decls(&block.declarations);
        self.stmts(&block.statements);
        self.mark(Mark::CloseBrace);
    }

    #[cycle(stmt)]
    #[tactic(auto, unfolding(pw_tree::specs::Views::view_stmt, pw_tree::specs::Spelling::spell_stmt))]
    fn stmts(&mut self, statements: &[Stmt])
        ensures { Writes (spell.spell_stmts (view.view_stmts statements.now)) self.old self.new }
    {
        for statement in statements {
            self.stmt(statement);
        }
    }
}
