//! What the statements of a function are lowered in.

ghost use Rattle.std.specs.Prelude.{◌≡◌};
ghost use Rattle.pw_lower.specs.Statements as spec;
ghost use Rattle.pw_typed.specs.Views.{view_locals};
ghost use Rattle.pw_types.specs.TypeTrees.{Void};
ghost use Rattle.pw_types.specs.Views.{view_type};

use pw_lower_forms::Home;
use pw_typed::Local;
use pw_types::CType;

/// What is the same for the whole function.
#[derive(Clone, Copy)]
pub struct Frame<'a> {
    pub home: Home<'a>,
    pub locals: &'a [Local],
}

impl<'a> Frame<'a> {
    /// The type of a local, or another one where the function has none of the number.
    pub fn type_of(self, local: u32, unknown: &'a CType) -> &'a CType
        requires { view_type unknown.now ≡ Void }
        ensures { view_type result.now ≡ spec.local_type (view_locals self.entry.locals.now) local }
    {
        match self.locals.get(local as usize) {
            Some(local) => &local.ty.ty,
            None => unknown,
        }
    }
}
