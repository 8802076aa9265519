//! Laws of directives.

ghost use Rattle.std.specs.Prelude.{◌≡◌, ℕ, List, Option};
ghost use Rattle.pw_cpp_directives.specs.Directives.{DoesWord, Effect, Standing};
ghost use Rattle.pw_cpp_directives.specs.declared.condition.Digits.{Digits};
ghost use Rattle.pw_cpp_directives.specs.declared.directive.Word.{Word};
ghost use Rattle.pw_token.specs.declared.token.Token.{Token};

use pw_cpp_condition::one_meaning;
use pw_cpp_expand::one_outcome;

/// A directive has one effect: two effects that it may have are the same.
pub fn one_effect()
    ensures { (source : List ℕ) (digits : Digits) (s : Standing) (hash : ℕ) (tokens : List Token) (word : Option Word) (effect other : Effect) → DoesWord source digits s hash tokens word effect → DoesWord source digits s hash tokens word other → effect ≡ other }
{
    one_outcome();
    one_meaning();
}
