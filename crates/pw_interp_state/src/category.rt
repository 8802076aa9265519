//! The category of a type, and what a write is for.

ghost use Rattle.std.specs.Prelude.{◌≡◌};
ghost use Rattle.pw_types.specs.Views.{view_type};
ghost use Rattle.pw_value.specs.Values.{IsWidth};
ghost use Rattle.pw_interp_state.specs.Categories.{category_of};
ghost use Rattle.pw_interp_state.specs.Accesses.{width_for};

use pw_types::{CType, IntKind};

/// The category of a type, that is its outermost derivation, with the kind of an integer type (ISO C90 6.1.2.5).
#[derive(Clone, Copy)]
pub enum Category {
    /// `void`.
    Void,
    /// An integer type of this kind.
    Int(IntKind),
    /// A pointer.
    Pointer,
    /// An array.
    Array,
    /// A function.
    Function,
    /// A structure or union.
    Record,
}

/// What a write is for: an assignment writes only what may be written, an initialiser gives an object that is
/// defined const its value (ISO C90 6.5.3, 6.5.7).
#[derive(Clone, Copy)]
pub enum Purpose {
    /// An assignment, which writes only what may be written.
    Assigning,
    /// An initialiser, which may write an object that is defined const.
    Initialising,
}

/// The category of a type.
#[tactic(auto, unfolding(pw_types::specs::Views::view_type), using(pw_types::proofs::ViewLemmas::signature_view))]
pub fn categorise(ty: &CType) -> Category
    ensures { result ≡ category_of (view_type ty.now) }
{
    match ty {
        CType::Void => Category::Void,
        CType::Int(kind) => Category::Int(*kind),
        CType::Pointer(_) => Category::Pointer,
        CType::Array(_, _) => Category::Array,
        CType::Function(_) => Category::Function,
        CType::Record(_) => Category::Record,
    }
}

impl Category {
    /// How many bytes a scalar of the category has.
    pub(crate) fn width(self) -> u8
        ensures width { result ≡ width_for self }
        ensures scalar { IsWidth result }
    {
        match self {
            Category::Int(kind) => kind.size(),
            Category::Void
            | Category::Pointer
            | Category::Array
            | Category::Function
            | Category::Record => 4,
        }
    }
}
