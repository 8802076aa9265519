//! The first tokens of declarations, at which their faults stand.

ghost use Rattle.std.specs.Prelude.{◌≡◌};
ghost use Rattle.pw_check_rules.specs.Leaves as spec;
ghost use Rattle.pw_tree.specs.Views.{view_declarator, view_specifiers};

use pw_tree::{Declarator, Specifier, first_of_specifiers};

/// The number of the first token of a list of specifiers, 0 where the list has none.
pub fn first_of_list(specifiers: &[Specifier]) -> usize
    ensures { result ≡ spec.first_of_list (view_specifiers specifiers.now) }
{
    first_of_specifiers(specifiers).unwrap_or(0)
}

/// The number of the first token of a list of specifiers with a declarator, 0 where they have none.
pub fn first_of_declaration(specifiers: &[Specifier], declarator: &Declarator) -> usize
    ensures { result ≡ spec.first_of_declaration (view_specifiers specifiers.now) (view_declarator declarator.now) }
{
    first_of_specifiers(specifiers)
        .or(declarator.first_token())
        .unwrap_or(0)
}
