//! What the expressions of a function are lowered in.

ghost use Rattle.std.specs.Prelude.{◌≡◌};
ghost use Rattle.pw_lower.specs.Places.{place_at};

use pw_lower::LocalPlace;
use pw_types::Types;
use pw_value::Name;

/// The module's name and its structure and union types, and where the function's locals stand.
#[derive(Clone, Copy)]
pub struct Home<'a> {
    pub name: &'a Name,
    pub types: &'a Types,
    pub places: &'a [LocalPlace],
}

/// Where the local of a number stands.
pub fn place_of(places: &[LocalPlace], local: u32) -> LocalPlace
    ensures { result ≡ place_at places.now local }
{
    match places.get(local as usize) {
        Some(place) => *place,
        None => LocalPlace::Temp(0),
    }
}
