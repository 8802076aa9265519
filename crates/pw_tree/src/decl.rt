//! Declarations and initializers (C90 6.5, 6.5.7).

use crate::expr::{Declarator, Expr, Specifier};

/// An initializer (C90 6.5.7).
pub enum Init {
    /// An assignment expression.
    Value(Expr),
    /// A list in braces, at its `{`; whether a comma stands before its `}`.
    List {
        token: usize,
        items: Vec<Init>,
        trailing_comma: bool,
    },
}

/// An initializer behind its `=`, at whose token it stands (C90 6.5.7).
pub struct Initializer {
    pub token: usize,
    pub init: Init,
}

/// A declarator, with its initializer where it has one.
pub struct InitDeclarator {
    pub declarator: Declarator,
    pub initializer: Option<Initializer>,
}

/// A declaration (C90 6.5).
pub struct Decl {
    pub specifiers: Vec<Specifier>,
    pub declarators: Vec<InitDeclarator>,
}

impl Drop for Init {
    #[cycle(drop_init)]
    fn drop(self) {
        match self {
            Init::Value(_) => {}
            Init::List {
                token: _,
                items: _,
                trailing_comma: _,
            } => {}
        }
    }
}

impl Drop for Initializer {
    fn drop(self) {
        let Initializer { token: _, init: _ } = self;
    }
}

impl Drop for InitDeclarator {
    fn drop(self) {
        let InitDeclarator {
            declarator: _,
            initializer: _,
        } = self;
    }
}

impl Drop for Decl {
    fn drop(self) {
        let Decl {
            specifiers: _,
            declarators: _,
        } = self;
    }
}
