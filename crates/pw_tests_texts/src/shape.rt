//! Shapes of trees: each node in parentheses, with its kind and its parts, but no numbers of tokens.

use pw_rows::Text;
use pw_tree::{Keyword, Mark, Module, Word};
use std::alloc::Global;

/// Collects the pieces of a shape, with a blank between each two of them.
#[derive(Drop)]
pub struct Shape {
    text: Text,
}

/// Adds the shape of a tree.
pub fn push_shape(text: &mut Text, tree: &Module) {
    let mut shape = Shape::new(text.alloc());
    shape.module(tree);
    match shape.text.into_bytes() {
        Ok(bytes) => text.push(&bytes),
        Err(_) => text.cut(),
    }
}

impl Shape {
    fn new(alloc: Global) -> Self {
        Shape {
            text: Text::new(alloc),
        }
    }

    fn push(&mut self, bytes: &[u8]) {
        self.text.push(bytes);
    }

    /// A blank, unless this is the beginning of the shape or of a node.
    fn blank(&mut self) {
        match self.text.last() {
            None | Some(b'(') => {}
            Some(_) => self.push(b" "),
        }
    }

    /// A piece, behind a blank where one is due.
    pub fn piece(&mut self, piece: &[u8]) {
        self.blank();
        self.push(piece);
    }

    /// The beginning of a node of a kind.
    pub fn open(&mut self, kind: &[u8]) {
        self.open_list();
        self.piece(kind);
    }

    /// Opens a list of parts, behind a blank where one is due.
    pub fn open_list(&mut self) {
        self.blank();
        self.push(b"(");
    }

    /// The end of a node or of a list.
    pub fn close(&mut self) {
        self.push(b")");
    }

    /// A node without parts.
    pub fn leaf(&mut self, kind: &[u8]) {
        self.open(kind);
        self.close();
    }

    /// In place of a part that is left out.
    pub fn absent(&mut self) {
        self.piece(b"-");
    }

    /// Adds a keyword as it is spelled, behind a blank where one is due.
    pub fn keyword(&mut self, keyword: Keyword) {
        self.piece(keyword.text());
    }

    /// An operator or punctuator as a piece.
    pub fn mark(&mut self, mark: Mark) {
        self.piece(mark.text());
    }

    /// The bytes of an identifier, constant or string as a piece.
    pub fn word(&mut self, word: &Word) {
        self.piece(&word.text);
    }

    /// A node of a kind with one word in it.
    pub fn word_of(&mut self, kind: &[u8], word: &Word) {
        self.open(kind);
        self.word(word);
        self.close();
    }

    /// The beginning of a node of a kind, and words.
    pub fn open_words(&mut self, kind: &[u8], words: &[Word]) {
        self.open(kind);
        for word in words {
            self.word(word);
        }
    }
}
