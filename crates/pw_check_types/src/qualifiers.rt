//! Qualifiers (C90 6.5.3).

ghost use Rattle.std.specs.Prelude.{◌≡◌};
ghost use Rattle.pw_check_rules.specs.Compatible as compatible;
ghost use Rattle.pw_check_rules.specs.Kinds as spec;
ghost use Rattle.pw_types.specs.Views.{view_qtype};

use pw_types::{CType, QType};

/// A type with qualifiers more; an array's are those of its elements.
pub fn qualify(mut q: QType, constant: bool, volatile: bool) -> QType
    ensures { view_qtype result ≡ spec.qualify constant volatile (view_qtype q) }
{
    qualify_in(&mut q, constant, volatile);
    q
}

/// The same in place.
#[tactic(auto, unfolding(pw_types::specs::Views::view_type, pw_check_rules::specs::Kinds::qualify), using(pw_types::proofs::ViewLemmas::signature_view))]
fn qualify_in(q: &mut QType, constant: bool, volatile: bool)
    ensures { view_qtype q.new ≡ spec.qualify constant volatile (view_qtype q.old) }
{
    match &mut q.ty {
        CType::Array(element, _) => qualify_in(element, constant, volatile),
        CType::Void | CType::Int(_) | CType::Pointer(_) | CType::Function(_) | CType::Record(_) => {
            q.constant = q.constant || constant;
            q.volatile = q.volatile || volatile;
        }
    }
}

/// Whether the second type has each qualifier that the first has.
pub fn qualified_within(a: &QType, b: &QType) -> bool
    ensures { result ≡ compatible.qualified_within (view_qtype a.now) (view_qtype b.now) }
{
    (!a.constant || b.constant) && (!a.volatile || b.volatile)
}
