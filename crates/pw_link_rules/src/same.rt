//! Names that are the same.

ghost use Rattle.std.specs.Prelude.{◌≡◌, ◌↔◌, IsTrue};

use pw_value::Name;

/// Whether two names are the same.
pub(crate) fn is_same(one: &Name, other: &Name) -> bool
    ensures { IsTrue result ↔ (one.now ≡ other.now) }
{
    one.as_bytes() == other.as_bytes()
}
