//! String literals that initialise by themselves (C90 6.5.7).

ghost use Rattle.std.specs.Prelude.{◌≡◌, false, true, IfNone, IfSome};
ghost use Rattle.pw_check_init_parts.specs.FilledViews.{view_string_form};
ghost use Rattle.pw_check_rules.specs.Initialisers as spec;
ghost use Rattle.pw_tree.specs.Views.{view_expr, view_inits, view_words};
ghost use Rattle.pw_types.specs.Views.{view_type};

use pw_check_types::is_character_array;
use pw_tree::{Expr, Init, Word, statements_show_their_lists};
use pw_types::CType;

/// The words of a string literal that stands alone, not in parentheses.
pub fn string_form(e: &Expr) -> Option<&[Word]>
    ensures { view_string_form result ≡ spec.string_form (view_expr e.now) }
{
    match e {
        Expr::Strings(words) => Some(words.as_slice()),
        _ => None,
    }
}

/// The words of one string literal in braces.
#[tactic(auto, using(crate::proofs::FormLemmas::value_alone, crate::proofs::FormLemmas::not_alone))]
pub fn braced_string(items: &[Init]) -> Option<&[Word]>
    ensures { view_string_form result ≡ spec.braced_string (view_inits items.now) }
{
    let [only] = items else {
        return None;
    };
    match only {
        Init::Value(e) => string_form(e),
        Init::List { .. } => {
            statements_show_their_lists();
            None
        }
    }
}

/// The words of a string literal, where it fills an array of characters of this type.
pub fn filling_string<'w>(ty: &CType, words: Option<&'w [Word]>) -> Option<&'w [Word]>
    ensures filled { IfSome result (λ ws. spec.fills_characters (view_type ty.now) (view_string_form words.entry) ≡ true) }
    ensures words { IfSome result (λ ws. spec.words_in (view_string_form words.entry) ≡ view_words ws.now) }
    ensures other { IfNone result (spec.fills_characters (view_type ty.now) (view_string_form words.entry) ≡ false) }
{
    match words {
        Some(words) if is_character_array(ty) => Some(words),
        _ => None,
    }
}
