//! The first token of a tree, by which a fault names its place.

ghost use Rattle.std.specs.Prelude.{◌≡◌};
ghost use Rattle.pw_tree.specs.FirstTokens as first;
ghost use Rattle.pw_tree.specs.Trees.{NoMemberDeclarator, NoSpecifier, NoSuffix};
ghost use Rattle.pw_tree.specs.Views as view;

use crate::expr::{
    Core, Declarator, Expr, MemberDeclarator, Parameter, Pointer, Specifier, Suffix, Word,
};
use crate::stmt::{Label, Stmt};

/// The number of the first word, 0 where there is none.
pub fn first_of_words(words: &[Word]) -> usize
    ensures { result ≡ first.first_of_words (view.view_words words.now) }
{
    match words.split_first() {
        Some((first, _)) => first.token,
        None => 0,
    }
}

impl Expr {
    /// The number of its first token: that of its first operand, where it begins with one.
    #[tactic(auto, unfolding(crate::specs::Views::view_expr, crate::specs::FirstTokens::first_of_expr))]
    pub fn first_token(&self) -> usize
        ensures { result ≡ first.first_of_expr (view.view_expr self.now) }
    {
        let mut e = self;
        loop {
            match e {
                Expr::Identifier(word)
                | Expr::Number(word)
                | Expr::Floating(word)
                | Expr::Character(word)
                | Expr::Wide(word) => return word.token,
                Expr::Strings(pieces) => return first_of_words(pieces),
                Expr::Paren { token, .. }
                | Expr::Unary { token, .. }
                | Expr::SizeofType { token, .. }
                | Expr::Cast { token, .. } => return *token,
                Expr::Postfix { operand, .. } => e = operand,
                Expr::Chain { first, .. } => e = first,
                Expr::Conditional { condition, .. } => e = condition,
                Expr::Assign { left, .. } => e = left,
            }
        }
    }
}

impl Specifier {
    /// The number, in the module's list of tokens, of the token with which the specifier begins.
    #[tactic(auto, unfolding(crate::specs::Views::view_expr, crate::specs::FirstTokens::first_of_specifiers))]
    pub fn first_token(&self) -> usize
        ensures { Some result ≡ first.first_of_specifiers (view.view_specifier self.now NoSpecifier) }
    {
        match self {
            Specifier::TypedefName(word) => word.token,
            Specifier::Storage { token, .. }
            | Specifier::Qualifier { token, .. }
            | Specifier::Basic { token, .. }
            | Specifier::RecordTag { token, .. }
            | Specifier::Record { token, .. }
            | Specifier::EnumTag { token, .. }
            | Specifier::Enum { token, .. } => *token,
        }
    }
}

/// The number of the first token of specifiers, None where there are none.
#[tactic(auto, using(crate::proofs::FirstViews::specifiers_by_first), unfolding(crate::specs::FirstTokens::first_of_specifiers))]
pub fn first_of_specifiers(specifiers: &[Specifier]) -> Option<usize>
    ensures { result ≡ first.first_of_specifiers (view.view_specifiers specifiers.now) }
{
    match specifiers.split_first() {
        Some((first, _)) => Some(first.first_token()),
        None => None,
    }
}

fn first_of_pointers(pointers: &[Pointer]) -> Option<usize>
    ensures { result ≡ first.first_of_pointers (view.view_pointers pointers.now) }
{
    match pointers.first() {
        Some(pointer) => Some(pointer.token),
        None => None,
    }
}

impl Core {
    #[tactic(auto, unfolding(crate::specs::Views::view_expr, crate::specs::FirstTokens::first_of_core))]
    fn first_token(&self) -> Option<usize>
        ensures { result ≡ first.first_of_core (view.view_core self.now) }
    {
        match self {
            Core::Absent => None,
            Core::Name(word) => Some(word.token),
            Core::Paren { token, .. } => Some(*token),
        }
    }
}

impl Suffix {
    #[tactic(auto, unfolding(crate::specs::Views::view_expr, crate::specs::FirstTokens::first_of_suffixes))]
    fn first_token(&self) -> usize
        ensures { Some result ≡ first.first_of_suffixes (view.view_suffix self.now NoSuffix) }
    {
        match self {
            Suffix::Array { token, .. }
            | Suffix::OpenArray { token }
            | Suffix::Parameters { token, .. }
            | Suffix::Variadic { token, .. }
            | Suffix::Identifiers { token, .. } => *token,
        }
    }
}

#[tactic(auto, using(crate::proofs::FirstViews::suffixes_by_first), unfolding(crate::specs::FirstTokens::first_of_suffixes))]
fn first_of_suffixes(suffixes: &[Suffix]) -> Option<usize>
    ensures { result ≡ first.first_of_suffixes (view.view_suffixes suffixes.now) }
{
    match suffixes.split_first() {
        Some((first, _)) => Some(first.first_token()),
        None => None,
    }
}

impl Declarator {
    /// The number of its first token, None where it is empty.
    pub fn first_token(&self) -> Option<usize>
        ensures { result ≡ first.first_of_declarator (view.view_declarator self.now) }
    {
        first_of_pointers(&self.pointers)
            .or(self.core.first_token())
            .or(first_of_suffixes(&self.suffixes))
    }
}

impl Parameter {
    /// The number of the token with which the parameter begins: that of its first specifier, or of its declarator
    /// where it has none.
    pub fn first_token(&self) -> Option<usize>
        ensures { result ≡ first.first_of_parameter (view.view_specifiers self.now.specifiers.items) (view.view_declarator self.now.declarator) }
    {
        first_of_specifiers(&self.specifiers).or(self.declarator.first_token())
    }
}

impl MemberDeclarator {
    /// The number of its first token: the `:` of a bit-field without a name.
    #[tactic(auto, using(crate::proofs::Rows::plain_member_view, crate::proofs::Rows::bit_field_view, crate::proofs::FirstViews::padding_first), unfolding(crate::specs::FirstTokens::first_of_members))]
    pub fn first_token(&self) -> Option<usize>
        ensures { result ≡ first.first_of_members (view.view_member_declarator self.now NoMemberDeclarator) }
    {
        match self {
            MemberDeclarator::Plain(declarator) => declarator.first_token(),
            MemberDeclarator::BitField {
                declarator,
                token,
                ..
            } => declarator.first_token().or(Some(*token)),
            MemberDeclarator::Padding { token, .. } => Some(*token),
        }
    }
}

impl Label {
    /// The number of the token with which the label begins: `case`, `default` or its name.
    pub fn first_token(&self) -> usize
        ensures { result ≡ first.first_of_label (view.view_label self.now) }
    {
        match self {
            Label::Case { token, .. } | Label::Default { token } => *token,
            Label::Name(word) => word.token,
        }
    }
}

impl Stmt {
    /// The number of its first token: that of its first label, where it has one.
    #[tactic(auto, unfolding(crate::specs::Views::view_stmt, crate::specs::FirstTokens::first_of_stmt))]
    pub fn first_token(&self) -> usize
        ensures { result ≡ first.first_of_stmt (view.view_stmt self.now) }
    {
        let mut stmt = self;
        loop {
            match stmt {
                Stmt::Labeled { labels, statement } => match labels.first() {
                    Some(label) => return label.first_token(),
                    None => stmt = statement,
                },
                Stmt::Expression(e) => return e.first_token(),
                Stmt::Block(block) => return block.token,
                Stmt::Empty { token }
                | Stmt::If { token, .. }
                | Stmt::Switch { token, .. }
                | Stmt::While { token, .. }
                | Stmt::Do { token, .. }
                | Stmt::For { token, .. }
                | Stmt::Goto { token, .. }
                | Stmt::Continue { token }
                | Stmt::Break { token }
                | Stmt::Return { token, .. } => return *token,
            }
        }
    }
}
