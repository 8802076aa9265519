//! Numbers of 32 bits: those of constant expressions and of bodies, by the rules; and those of objects without names,
//! since the typed tree's types hold them so.

ghost use Rattle.std.specs.Prelude.{ℕ, ◌≡◌, ◌<◌, ◌^◌, All, map, Ok, Some};
ghost use Rattle.pw_check_rules.specs.Checks.{Checks};
ghost use Rattle.pw_check_rules.specs.Constants.{constant_value};
ghost use Rattle.pw_tree.specs.Trees.{Module};
ghost use Rattle.pw_types.specs.TypedTrees.{Expression, ModuleValue};
ghost use Rattle.pw_typed.specs.Views as view;
ghost use Rattle.pw_law_checked.specs.Lawful.{AreWords};
ghost use Rattle.pw_law_checked.specs.Names.{AreNumbered, HasShortStrings, HasWord};
ghost use Rattle.pw_law_checked.specs.Words.{WordsInStatement};

use pw_typed::{Symbol, TGlobal, TModule};

/// The value of a constant expression is a word of 32 bits, if each number in the expression is one (ISO C90 6.4).
pub fn constants_of_words_are_words()
    ensures { (e : Expression) (n : ℕ) → AreWords e → constant_value e ≡ Some n → n < 2 ^ 32 }
{}

/// In each function of a module that checking accepts each number is a word of 32 bits, if no string literal is longer than an
/// object can be: integer and character constants are (ISO C90 6.1.3), so enumeration constants are (6.5.2.2), and so is what
/// `sizeof` gives (6.3.3.4), since types keep the limit on sizes.
pub fn accepted_bodies_have_words()
    ensures { (tree : Module) (m : ModuleValue) → HasShortStrings tree → Checks tree (Ok m) → All (λ f. WordsInStatement f.body) m.functions }
{}

/// The number of an object without a name.
fn number_is_word(name: &Symbol)
    ensures { HasWord (view.view_symbol name.now) }
{
    match name {
        Symbol::Hidden(number) => {
            let _word = *number;
        }
        Symbol::External(_) | Symbol::Internal(_) => {}
    }
}

/// The numbers of several objects.
fn numbers_of_all(all: &[TGlobal])
    ensures { All (λ g. HasWord g.name) (map view.view_global all.now) }
{
    for object in all {
        number_is_word(&object.name);
    }
}

/// Each object without a name of a typed tree that the code makes has a number of 32 bits. It is a law: it does nothing but go
/// through the objects.
pub fn numbers_of_objects(made: &TModule)
    ensures { AreNumbered (view.view_module made.now) }
{
    numbers_of_all(&made.globals);
}
