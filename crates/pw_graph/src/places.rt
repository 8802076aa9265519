//! Names by their places.

ghost use Rattle.std.specs.Prelude.{◌≡◌, []};
ghost use Rattle.pw_fields.specs.FieldNames.{IsRisingFrom};
ghost use Rattle.pw_graph.specs.Making.{place_in};

use pw_fields::names::find_name;
use pw_value::Name;

/// The place of a name in a table, where it stands there.
pub(crate) fn place_of(names: &[Name], name: &Name) -> Option<usize>
    requires { IsRisingFrom [] names.now }
    ensures { result ≡ place_in names.now name.now }
{
    find_name(names, name)
}
