//! The tokens of declarators (C90 6.5.4, 6.5.5).

ghost use Rattle.std.specs.Prelude.{◌≡◌, ◌∷◌, List, true};
ghost use Rattle.pw_tree.specs.Spelling as spell;
ghost use Rattle.pw_tree.specs.Views as view;
ghost use Rattle.pw_tree_spell.specs.Writing.{Writes, GoesBefore};

use crate::spelled::Writer;
use pw_tree::{Core, Declarator, Mark, Parameter, Suffix, declarators_show_their_lists};

impl Writer {
    /// The tokens of a declarator: its pointers, its core and its suffixes.
    #[cycle(spell)]
    #[tactic(auto, unfolding(pw_tree::specs::Views::view_expr, pw_tree::specs::Spelling::spell_expr))]
    pub fn declarator(&mut self, declarator: &Declarator)
        ensures { Writes (spell.spell_declarator (view.view_declarator declarator.now)) self.old self.new }
    {
        self.pointers(&declarator.pointers);
        self.core(&declarator.core);
        self.suffixes(&declarator.suffixes);
    }

    #[cycle(spell)]
    #[tactic(auto, unfolding(pw_tree::specs::Views::view_expr, pw_tree::specs::Spelling::spell_expr))]
    fn core(&mut self, core: &Core)
        ensures { Writes (spell.spell_core (view.view_core core.now)) self.old self.new }
    {
        declarators_show_their_lists();
        match core {
            Core::Absent => {}
            Core::Name(name) => self.identifier(name),
            Core::Paren { token: _, inner } => {
                self.mark(Mark::OpenParen);
                self.declarator(inner);
                self.mark(Mark::CloseParen);
            }
        }
    }

    #[cycle(spell)]
    #[tactic(auto, unfolding(pw_tree::specs::Views::view_expr, pw_tree::specs::Spelling::spell_expr))]
    fn suffixes(&mut self, suffixes: &[Suffix])
        ensures { Writes (spell.spell_suffixes (view.view_suffixes suffixes.now)) self.old self.new }
    {
        for suffix in suffixes {
            self.suffix(suffix);
        }
    }

    #[cycle(spell)]
    #[tactic(auto, unfolding(pw_tree::specs::Views::view_expr, pw_tree::specs::Spelling::spell_expr))]
    fn suffix(&mut self, suffix: &Suffix)
        ensures { GoesBefore spell.spell_suffixes (λ rest. spell.spell_suffixes (view.view_suffix suffix.now rest)) self.old self.new }
    {
        declarators_show_their_lists();
        match suffix {
            Suffix::Array { token: _, length } => {
                self.mark(Mark::OpenBracket);
                self.expr(length);
                self.mark(Mark::CloseBracket);
            }
            Suffix::OpenArray { token: _ } => {
                self.mark(Mark::OpenBracket);
                self.mark(Mark::CloseBracket);
            }
            Suffix::Parameters {
                token: _,
                parameters,
            } => {
                self.mark(Mark::OpenParen);
                self.parameters(parameters);
                self.mark(Mark::CloseParen);
            }
            Suffix::Variadic {
                token: _,
                parameters,
            } => {
                self.mark(Mark::OpenParen);
                self.parameters(parameters);
                self.mark(Mark::Comma);
                self.mark(Mark::Ellipsis);
                self.mark(Mark::CloseParen);
            }
            Suffix::Identifiers { token: _, names } => {
                self.mark(Mark::OpenParen);
                self.identifiers(names);
                self.mark(Mark::CloseParen);
            }
        }
    }

    #[cycle(spell)]
    #[tactic(auto, unfolding(pw_tree::specs::Views::view_expr, pw_tree::specs::Spelling::spell_expr))]
    fn parameters(&mut self, parameters: &[Parameter])
        ensures { Writes (spell.spell_parameters true (view.view_parameters parameters.now)) self.old self.new }
    {
        let mut first = true;
        for parameter in parameters {
            self.separate(first);
            self.specifiers(&parameter.specifiers);
            self.declarator(&parameter.declarator);
            first = false;
        }
    }
}
