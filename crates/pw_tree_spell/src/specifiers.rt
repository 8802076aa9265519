//! The tokens of specifiers (C90 6.5.1 to 6.5.3).

ghost use Rattle.std.specs.Prelude.{◌≡◌, ◌∷◌, List, true, false};
ghost use Rattle.pw_tree.specs.Spelling as spell;
ghost use Rattle.pw_tree.specs.Views as view;
ghost use Rattle.pw_tree_spell.specs.Writing.{Writes, GoesBefore};

use crate::spelled::Writer;
use pw_tree::{
    Enumerator, Keyword, Mark, Member, MemberDeclarator, Specifier, declarators_show_their_lists,
};

impl Writer {
    /// The tokens of a list of specifiers, in their order.
    #[cycle(spell)]
    #[tactic(auto, unfolding(pw_tree::specs::Views::view_expr, pw_tree::specs::Spelling::spell_expr))]
    pub fn specifiers(&mut self, specifiers: &[Specifier])
        ensures { Writes (spell.spell_specifiers (view.view_specifiers specifiers.now)) self.old self.new }
    {
        for specifier in specifiers {
            self.specifier(specifier);
        }
    }

    #[cycle(spell)]
    #[tactic(auto, unfolding(pw_tree::specs::Views::view_expr, pw_tree::specs::Spelling::spell_expr))]
    fn specifier(&mut self, specifier: &Specifier)
        ensures { GoesBefore spell.spell_specifiers (λ rest. spell.spell_specifiers (view.view_specifier specifier.now rest)) self.old self.new }
    {
        declarators_show_their_lists();
        match specifier {
            Specifier::Storage { token: _, class } => self.keyword(class.keyword()),
            Specifier::Qualifier {
                token: _,
                qualifier,
            } => self.keyword(qualifier.keyword()),
            Specifier::Basic { token: _, basic } => self.keyword(basic.keyword()),
            Specifier::TypedefName(name) => self.identifier(name),
            Specifier::RecordTag {
                token: _,
                kind,
                tag,
            } => {
                self.keyword(kind.keyword());
                self.identifier(tag);
            }
            Specifier::Record {
                token: _,
                kind,
                tag,
                members,
            } => {
                self.keyword(kind.keyword());
                self.tag(tag);
                self.mark(Mark::OpenBrace);
                self.members(members);
                self.mark(Mark::CloseBrace);
            }
            Specifier::EnumTag { token: _, tag } => {
                self.keyword(Keyword::Enum);
                self.identifier(tag);
            }
            Specifier::Enum {
                token: _,
                tag,
                enumerators,
            } => {
                self.keyword(Keyword::Enum);
                self.tag(tag);
                self.mark(Mark::OpenBrace);
                self.enumerators(enumerators);
                self.mark(Mark::CloseBrace);
            }
        }
    }

    #[cycle(spell)]
    #[tactic(auto, unfolding(pw_tree::specs::Views::view_expr, pw_tree::specs::Spelling::spell_expr))]
    fn members(&mut self, members: &[Member])
        ensures { Writes (spell.spell_members (view.view_members members.now)) self.old self.new }
    {
        for member in members {
            self.specifiers(&member.specifiers);
            self.member_declarators(&member.declarators);
            self.mark(Mark::Semicolon);
        }
    }

    #[cycle(spell)]
    #[tactic(auto, unfolding(pw_tree::specs::Views::view_expr, pw_tree::specs::Spelling::spell_expr))]
    fn member_declarators(&mut self, declarators: &[MemberDeclarator])
        ensures { Writes (spell.spell_member_declarators true (view.view_member_declarators declarators.now)) self.old self.new }
    {
        let mut first = true;
        for declarator in declarators {
            self.member_declarator(first, declarator);
            first = false;
        }
    }

    #[cycle(spell)]
    #[tactic(auto, unfolding(pw_tree::specs::Views::view_expr, pw_tree::specs::Spelling::spell_expr))]
    fn member_declarator(&mut self, first: bool, declarator: &MemberDeclarator)
        ensures { GoesBefore (spell.spell_member_declarators false) (λ rest. spell.spell_member_declarators first (view.view_member_declarator declarator.now rest)) self.old self.new }
    {
        declarators_show_their_lists();
        self.separate(first);
        match declarator {
            MemberDeclarator::Plain(declarator) => self.declarator(declarator),
            MemberDeclarator::BitField {
                declarator,
                token: _,
                width,
            } => {
                self.declarator(declarator);
                self.mark(Mark::Colon);
                self.expr(width);
            }
            MemberDeclarator::Padding { token: _, width } => {
                self.mark(Mark::Colon);
                self.expr(width);
            }
        }
    }

    #[cycle(spell)]
    #[tactic(auto, unfolding(pw_tree::specs::Views::view_expr, pw_tree::specs::Spelling::spell_expr))]
    fn enumerators(&mut self, enumerators: &[Enumerator])
        ensures { Writes (spell.spell_enumerators true (view.view_enumerators enumerators.now)) self.old self.new }
    {
        let mut first = true;
        for enumerator in enumerators {
            self.enumerator(first, enumerator);
            first = false;
        }
    }

    #[cycle(spell)]
    #[tactic(auto, unfolding(pw_tree::specs::Views::view_expr, pw_tree::specs::Spelling::spell_expr))]
    fn enumerator(&mut self, first: bool, enumerator: &Enumerator)
        ensures { GoesBefore (spell.spell_enumerators false) (λ rest. spell.spell_enumerators first (view.view_enumerator enumerator.now rest)) self.old self.new }
    {
        self.separate(first);
        match enumerator {
            Enumerator::Plain(name) => self.identifier(name),
            Enumerator::Valued { name, value } => {
                self.identifier(name);
                self.mark(Mark::Equal);
                self.expr(value);
            }
        }
    }
}
