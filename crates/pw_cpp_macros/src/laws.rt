//! Laws of macros.

ghost use Rattle.std.specs.Prelude.{◌≡◌, ℕ, List, Ok, IfSome};
ghost use Rattle.pw_cpp_macros.specs.Definitions.{AreParameters, definition_of};
ghost use Rattle.pw_cpp_macros.specs.Limits.{macro_limit, parameter_limit};
ghost use Rattle.pw_cpp_macros.specs.declared.definition.Definition.{Definition};
ghost use Rattle.pw_token.specs.declared.token.Token.{Token};

use crate::definition::PARAMETER_LIMIT;
use crate::table::MACRO_LIMIT;

/// The limits of macros are those that their definitions speak of.
pub fn limits_of_macros()
    ensures macros { MACRO_LIMIT ≡ macro_limit }
    ensures parameters { PARAMETER_LIMIT ≡ parameter_limit }
{}

/// The parameters of a macro are words, no two of them alike, and no more than there may be.
pub fn parameters_are_apart()
    ensures { (text : List ℕ) (tokens : List Token) (definition : Definition) → definition_of text tokens ≡ Ok definition → IfSome definition.meaning.parameters (AreParameters text) }
{}
