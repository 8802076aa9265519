//! Tokens that are spelled out, and the writer that collects them.

ghost use Rattle.std.specs.Prelude.{◌≡◌, ◌∷◌, List, OnOk, false};
ghost use Rattle.pw_tree.specs.Symbols as spec;
ghost use Rattle.pw_tree.specs.Symbols.{Symbol, spelled};
ghost use Rattle.pw_tree.specs.Spelling.{identifier, separated};
ghost use Rattle.pw_tree.specs.Views.{view_word};
ghost use Rattle.pw_tree_spell.specs.Writing.{Writes, followed};

use pw_token::TokenKind;
use pw_tree::{Keyword, Mark, Word};
use std::alloc::{AllocError, Global};

/// The fault of a spelling for which memory ran out.
pub type NoMemory = AllocError;

/// A token's kind and its bytes.
#[derive(Drop)]
pub struct Spelled {
    pub kind: TokenKind,
    pub text: Vec<u8>,
}

/// Collects the tokens of a tree, until memory runs out: from then on it is full and takes no more.
#[derive(Drop)]
pub struct Writer {
    pub alloc: Global,
    pub tokens: Vec<Spelled>,
    pub full: bool,
}

impl Writer {
    #[tactic(auto, unfolding(crate::specs::Writing::followed))]
    fn try_push(&mut self, kind: TokenKind, text: &[u8]) -> Result<(), NoMemory>
        ensures full { self.new.full ≡ self.old.full }
        ensures pushed { OnOk result ((symbol : Symbol) → spelled symbol ≡ record { kind = kind; text = text.now }
            → (z : List Symbol) → followed self.new.tokens.items z ≡ followed self.old.tokens.items (symbol ∷ z)) }
    {
        let text = text.to_vec(self.alloc)?;
        self.tokens.push(Spelled { kind, text })?;
        Ok(())
    }

    /// A token of this kind with these bytes.
    pub fn push(&mut self, kind: TokenKind, text: &[u8])
        ensures full { self.new.full ≡ false → self.old.full ≡ false }
        ensures pushed { (symbol : Symbol) → spelled symbol ≡ record { kind = kind; text = text.now }
            → self.new.full ≡ false → (z : List Symbol) → followed self.new.tokens.items z ≡ followed self.old.tokens.items (symbol ∷ z) }
    {
        if !self.full && self.try_push(kind, text).is_err() {
            self.full = true;
        }
    }

    /// Adds a keyword, as it is spelled, behind the tokens so far.
    pub fn keyword(&mut self, keyword: Keyword)
        ensures { Writes (λ z. spec.Reserved keyword ∷ z) self.old self.new }
    {
        self.push(TokenKind::Keyword, keyword.text());
    }

    /// An operator or punctuator as a token.
    pub fn mark(&mut self, mark: Mark)
        ensures { Writes (λ z. spec.Sign mark ∷ z) self.old self.new }
    {
        self.push(TokenKind::Mark, mark.text());
    }

    /// An identifier with its bytes as a token.
    pub fn identifier(&mut self, word: &Word)
        ensures { Writes (λ z. identifier (view_word word.now) ∷ z) self.old self.new }
    {
        self.push(TokenKind::Identifier, &word.text);
    }

    /// A comma, unless the item behind it is the first of its list.
    pub fn separate(&mut self, first: bool)
        ensures { Writes (separated first) self.old self.new }
    {
        if !first {
            self.mark(Mark::Comma);
        }
    }
}
