//! Types that are to be complete (C90 6.5).

ghost use Rattle.std.specs.Prelude.{◌≡◌, if◌then◌else◌, None, [], ◌∷◌};
ghost use Rattle.pw_check_state.specs.PhraseViews.{view_name, view_spot};
ghost use Rattle.pw_check_walk.specs.Found.{found};
ghost use Rattle.pw_check_rules.specs.Derivations as derivations;
ghost use Rattle.pw_check_rules.specs.Limits as spec;
ghost use Rattle.pw_types.specs.Views.{view_type};
ghost use Rattle.pw_check_walk.specs.Causes.{Constraint, kind_of};

use pw_check_state::Spot;
use pw_check_types::{innermost, is_complete, is_record};
use pw_check_walk::{CheckKind, Finding};
use pw_tree::Word;
use pw_types::{CType, Types};

/// Where the faults of a declarator stand: at the declared name, or without one at the first specifier.
pub fn spot_of(name: Option<&Word>, first: usize, tag: Option<usize>) -> Spot
    ensures { view_spot result ≡ derivations.spot_of (view_name name.entry) first tag }
{
    Spot {
        token: match name {
            Some(word) => word.token,
            None => first,
        },
        specifier: first,
        tag,
    }
}

/// The tag that the specifiers brought in, where the type that is to be complete is a structure or union without
/// content, or an array of such.
fn tag_of_record(types: &Types, spot: &Spot, ty: &CType) -> Option<usize>
    ensures { result ≡ (if spec.lacks_content types.now (view_type ty.now) then spot.now.tag else None) }
{
    let record = innermost(ty);
    if is_record(record) && !is_complete(types, record) {
        spot.tag
    } else {
        None
    }
}

/// What is found of a type that is to be complete. Where its specifiers brought in the tag of a record that has no
/// content, that tag is not declared (C90 6.5.2.3); else a constraint of this kind is broken.
#[tactic(auto, using(crate::proofs::LimitLemmas::completed_tagged, crate::proofs::LimitLemmas::completed_plainly))]
pub fn completed(types: &Types, spot: &Spot, kind: CheckKind, ty: &CType) -> Finding
    ensures { (constraint : Constraint) → kind_of constraint ≡ kind → result.least ≡ found (spec.completed types.now (view_spot spot.now) constraint (view_type ty.now) ∷ []) }
{
    match tag_of_record(types, spot, ty) {
        Some(tag) => Finding::none().needs(CheckKind::UnknownName, tag, false),
        None => Finding::none().needs(kind, spot.token, is_complete(types, ty)),
    }
}
