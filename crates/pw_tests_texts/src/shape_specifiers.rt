//! The shapes of specifiers.

use crate::shape::Shape;
use pw_tree::{Enumerator, Keyword, Member, MemberDeclarator, Specifier, Word};

impl Shape {
    /// The specifiers in one list. A typedef name in it is its name alone.
    #[cycle(shape)]
    pub fn specifiers(&mut self, specifiers: &[Specifier]) {
        self.open_list();
        for specifier in specifiers {
            self.specifier(specifier);
        }
        self.close();
    }

    #[cycle(shape)]
    fn specifier(&mut self, specifier: &Specifier) {
        match specifier {
            Specifier::Storage { class, .. } => self.keyword(class.keyword()),
            Specifier::Qualifier { qualifier, .. } => self.keyword(qualifier.keyword()),
            Specifier::Basic { basic, .. } => self.keyword(basic.keyword()),
            Specifier::TypedefName(name) => self.word(name),
            Specifier::RecordTag { kind, tag, .. } => self.word_of(kind.keyword().text(), tag),
            Specifier::Record {
                kind,
                tag,
                members,
                ..
            } => {
                self.open_tagged(kind.keyword(), tag);
                self.members(members);
                self.close();
            }
            Specifier::EnumTag { tag, .. } => self.word_of(Keyword::Enum.text(), tag),
            Specifier::Enum {
                tag,
                enumerators,
                ..
            } => {
                self.open_tagged(Keyword::Enum, tag);
                self.enumerators(enumerators);
                self.close();
            }
        }
    }

    /// The beginning of a node with a keyword and a tag where it has one.
    fn open_tagged(&mut self, keyword: Keyword, tag: &Option<Word>) {
        self.open(keyword.text());
        match tag {
            Some(tag) => self.word(tag),
            None => self.absent(),
        }
    }

    #[cycle(shape)]
    fn members(&mut self, members: &[Member]) {
        for member in members {
            self.member(member);
        }
    }

    #[cycle(shape)]
    fn member(&mut self, member: &Member) {
        self.open(b"member");
        self.specifiers(&member.specifiers);
        for declarator in &member.declarators {
            self.member_declarator(declarator);
        }
        self.close();
    }

    #[cycle(shape)]
    fn member_declarator(&mut self, declarator: &MemberDeclarator) {
        match declarator {
            MemberDeclarator::Plain(declarator) => self.declarator(declarator),
            MemberDeclarator::BitField {
                declarator,
                width,
                ..
            } => {
                self.open(b"bits");
                self.declarator(declarator);
                self.expr(width);
                self.close();
            }
            MemberDeclarator::Padding { width, .. } => self.expr_of(b"padding", width),
        }
    }

    #[cycle(shape)]
    fn enumerators(&mut self, enumerators: &[Enumerator]) {
        for enumerator in enumerators {
            self.enumerator(enumerator);
        }
    }

    #[cycle(shape)]
    fn enumerator(&mut self, enumerator: &Enumerator) {
        self.open(b"enumerator");
        match enumerator {
            Enumerator::Plain(name) => self.word(name),
            Enumerator::Valued { name, value } => {
                self.word(name);
                self.expr(value);
            }
        }
        self.close();
    }
}
