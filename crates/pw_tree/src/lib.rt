//! The syntax trees of C90 (ISO/IEC 9899:1990, 6.3 to 6.7).
#![tactic(auto)]

mod decl;
mod expr;
mod first_token;
mod laws;
mod lexeme;
mod module;
mod node_laws;
mod operator;
mod stmt;

pub use decl::{Decl, Init, InitDeclarator, Initializer};
pub use expr::{
    BasicType, Core, Declarator, Enumerator, Expr, Member, MemberDeclarator, Operation, Parameter,
    Pointer, PostfixOperation, Qualifier, RecordKind, Specifier, StorageClass, Suffix, TypeName,
    Word,
};
pub use first_token::{first_of_specifiers, first_of_words};
pub use laws::{first_tokens_are_first, symbols_have_one_spelling, words_spell_what_they_are};
pub use lexeme::{Lexeme, lexeme_of};
pub use module::{External, Function, Module};
pub use node_laws::{
    declarators_show_their_lists, expressions_show_their_lists, statements_show_their_lists,
};
pub use operator::{Access, AssignOperator, BinaryOperator, StepOperator, UnaryOperator};
pub use pw_token::{Keyword, Mark};
pub use stmt::{Block, ElseIf, Label, Stmt};
