//! The tokens of a module that are not read yet, with the names in scope, and what the rules of the parser's parts
//! share.
#![tactic(auto)]

mod declared;
mod smaller;
mod stop;
mod tokens;
mod word;

pub use declared::{Declared, declare_name};
pub use smaller::{SmallerParts, boxed_expr, some_specifiers};
pub use stop::Stop;
pub use tokens::{Binding, Tokens};
pub use word::{
    ASSIGNMENT, CAST, COMMA, CONDITIONAL, UNARY, assigns, begins_declaration, begins_specifier,
    has_type, has_typedef, is_type, levels_of_expressions, opens_parameters, opens_type_name,
    operand_level, operator_at, prefix_operator, qualifier_word, specifier_word,
};
