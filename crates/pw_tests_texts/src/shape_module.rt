//! The shapes of modules.

use crate::shape::Shape;
use pw_tree::{External, Function, Module};

impl Shape {
    /// The external declarations, one behind another.
    pub fn module(&mut self, module: &Module) {
        for external in &module.externals {
            self.external(external);
        }
    }

    fn external(&mut self, external: &External) {
        match external {
            External::Function(function) => self.function(function),
            External::Declaration(decl) => self.decl(decl),
        }
    }

    fn function(&mut self, function: &Function) {
        self.open(b"function");
        self.specifiers(&function.specifiers);
        self.declarator(&function.declarator);
        self.decls(&function.declarations);
        self.block(&function.body);
        self.close();
    }
}
