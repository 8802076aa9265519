//! Places of a text.

ghost use Rattle.std.specs.Prelude.{◌≡◌};
ghost use Rattle.pw_token.specs.Places.{line_at};

/// The line of a place, counted from 1; past the end of the text its last line.
pub fn line_at(text: &[u8], place: usize) -> usize
    ensures { result ≡ line_at text.now place }
{
    let before = &text[..place.min(text.len())];
    1 + before.iter().filter(|byte| **byte == b'\n').count()
}
