//! What is done with a directive.

ghost use Rattle.std.specs.Prelude.{◌≡◌};
ghost use Rattle.pw_cpp.specs.Answers.{use_by};

use crate::reader::Reader;
use pw_cpp_directives::is_turn;

/// What is done with a directive.
#[derive(Clone, Copy)]
pub enum Way {
    /// A `#pragma` has no effect.
    Pragma,
    /// An `#include` reads a header.
    Include,
    /// The line lexes whole, and does what its word says.
    Whole,
    /// The directive is passed over.
    Passed,
}

/// What is done with a directive of this name.
pub fn way_of(reader: &Reader<'_>, name: &[u8]) -> Way
    ensures { result ≡ use_by reader.now name.now }
{
    let reading = reader.is_reading();
    if reading && name == b"pragma".as_slice() {
        return Way::Pragma;
    }
    if reading && name == b"include".as_slice() {
        return Way::Include;
    }
    if reading || (reader.standing.nested.len() == 0 && is_turn(name)) {
        return Way::Whole;
    }
    Way::Passed
}
