//! The tokens of lists of words.

ghost use Rattle.std.specs.Prelude.{◌≡◌, ◌∷◌, List, true};
ghost use Rattle.pw_tree.specs.Spelling as spell;
ghost use Rattle.pw_tree.specs.Views as view;
ghost use Rattle.pw_tree_spell.specs.Writing.{Writes};

use crate::spelled::Writer;
use pw_token::TokenKind;
use pw_tree::{Mark, Pointer, Qualifier, Word};

impl Writer {
    /// The tokens of adjacent string literals.
    pub fn strings(&mut self, pieces: &[Word])
        ensures { Writes (spell.spell_strings (view.view_words pieces.now)) self.old self.new }
    {
        for piece in pieces {
            self.push(TokenKind::Text, &piece.text);
        }
    }

    /// The tokens of a list of identifiers, with commas between them.
    pub fn identifiers(&mut self, names: &[Word])
        ensures { Writes (spell.spell_identifiers true (view.view_words names.now)) self.old self.new }
    {
        let mut first = true;
        for name in names {
            self.separate(first);
            self.identifier(name);
            first = false;
        }
    }

    /// The token of a tag, where there is one.
    pub fn tag(&mut self, tag: &Option<Word>)
        ensures { Writes (spell.spell_tag (view.view_tag tag.now)) self.old self.new }
    {
        if let Some(name) = tag {
            self.identifier(name);
        }
    }

    /// The tokens of type qualifiers, in their order.
    pub fn qualifiers(&mut self, qualifiers: &[Qualifier])
        ensures { Writes (spell.spell_qualifiers qualifiers.now) self.old self.new }
    {
        for qualifier in qualifiers {
            self.keyword(qualifier.keyword());
        }
    }

    /// The tokens of pointers: a `*` for each, and its qualifiers behind it.
    pub fn pointers(&mut self, pointers: &[Pointer])
        ensures { Writes (spell.spell_pointers (view.view_pointers pointers.now)) self.old self.new }
    {
        for pointer in pointers {
            self.mark(Mark::Star);
            self.qualifiers(&pointer.qualifiers);
        }
    }
}
