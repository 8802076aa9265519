//! The shapes of declarators.

use crate::shape::Shape;
use pw_tree::{Core, Declarator, Parameter, Pointer, Suffix};

impl Shape {
    /// A name alone, or a node with the pointers, the name and the suffixes in the source's order.
    #[cycle(shape)]
    pub fn declarator(&mut self, declarator: &Declarator) {
        if declarator.pointers.is_empty() && declarator.suffixes.is_empty() {
            return self.core(&declarator.core);
        }
        self.open(b"declarator");
        self.pointers(&declarator.pointers);
        self.core(&declarator.core);
        self.suffixes(&declarator.suffixes);
        self.close();
    }

    fn pointers(&mut self, pointers: &[Pointer]) {
        for pointer in pointers {
            self.pointer(pointer);
        }
    }

    /// A `*`, in a list with its qualifiers where it has some.
    fn pointer(&mut self, pointer: &Pointer) {
        if pointer.qualifiers.is_empty() {
            return self.piece(b"*");
        }
        self.open(b"*");
        for qualifier in &pointer.qualifiers {
            self.keyword(qualifier.keyword());
        }
        self.close();
    }

    #[cycle(shape)]
    fn core(&mut self, core: &Core) {
        match core {
            Core::Absent => self.absent(),
            Core::Name(name) => self.word(name),
            Core::Paren { inner, .. } => {
                self.open(b"paren");
                self.declarator(inner);
                self.close();
            }
        }
    }

    #[cycle(shape)]
    fn suffixes(&mut self, suffixes: &[Suffix]) {
        for suffix in suffixes {
            self.suffix(suffix);
        }
    }

    #[cycle(shape)]
    fn suffix(&mut self, suffix: &Suffix) {
        match suffix {
            Suffix::Array { length, .. } => self.expr_of(b"array", length),
            Suffix::OpenArray { .. } => self.leaf(b"array"),
            Suffix::Parameters { parameters, .. } => self.parameters(b"parameters", parameters),
            Suffix::Variadic { parameters, .. } => self.parameters(b"variadic", parameters),
            Suffix::Identifiers { names, .. } => {
                self.open_words(b"identifiers", names);
                self.close();
            }
        }
    }

    #[cycle(shape)]
    fn parameters(&mut self, kind: &[u8], parameters: &[Parameter]) {
        self.open(kind);
        for parameter in parameters {
            self.parameter(parameter);
        }
        self.close();
    }

    #[cycle(shape)]
    fn parameter(&mut self, parameter: &Parameter) {
        self.open(b"parameter");
        self.specifiers(&parameter.specifiers);
        self.declarator(&parameter.declarator);
        self.close();
    }
}
