//! The shapes of declarations and initializers.

use crate::shape::Shape;
use pw_tree::{Decl, Init, InitDeclarator};

impl Shape {
    /// The shapes of declarations, one behind another.
    pub fn decls(&mut self, decls: &[Decl]) {
        for decl in decls {
            self.decl(decl);
        }
    }

    /// The shape of a declaration: its specifiers, and its declarators with their initializers.
    pub fn decl(&mut self, decl: &Decl) {
        self.open(b"declare");
        self.specifiers(&decl.specifiers);
        for declarator in &decl.declarators {
            self.init_declarator(declarator);
        }
        self.close();
    }

    fn init_declarator(&mut self, declarator: &InitDeclarator) {
        match &declarator.initializer {
            Some(initializer) => {
                self.open(b"=");
                self.declarator(&declarator.declarator);
                self.init(&initializer.init);
                self.close();
            }
            None => self.declarator(&declarator.declarator),
        }
    }

    #[cycle(init)]
    fn init(&mut self, init: &Init) {
        match init {
            Init::Value(value) => self.expr(value),
            Init::List {
                items,
                trailing_comma,
                ..
            } => self.init_list(items, *trailing_comma),
        }
    }

    /// A list with its items, and a comma where one stands before its end.
    #[cycle(init)]
    fn init_list(&mut self, items: &[Init], trailing_comma: bool) {
        self.open(b"list");
        for item in items {
            self.init(item);
        }
        if trailing_comma {
            self.piece(b",");
        }
        self.close();
    }
}
