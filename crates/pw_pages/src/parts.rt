// The bytes and half words of a word, from the highest on.

ghost use Rattle.std.specs.Prelude.{◌≡◌, ◌+◌, ◌*◌, ◌%◌, ◌^◌, ◌<◌, get_or, slice_set};
ghost use Rattle.std.specs.Int.{to_be_bytes, w32};

/// The byte at a place in a word.
#[tactic(auto, using(crate::proofs::InWords::byte_shifted))]
#[inline(always)]
pub(crate) fn byte_in(word: u32, place: usize) -> u32
    requires { place < 4 }
    ensures { result ≡ get_or (to_be_bytes w32 word) place 0 }
{
    (word >> (24 - 8 * place)) % 0x100
}

/// The half word at a place in a word.
#[tactic(auto, using(crate::proofs::InWords::half_shifted))]
#[inline(always)]
pub(crate) fn half_in(word: u32, place: usize) -> u32
    requires within { place < 4 }
    requires even { place % 2 ≡ 0 }
    ensures { result ≡ get_or (to_be_bytes w32 word) place 0 * 2 ^ 8 + get_or (to_be_bytes w32 word) (place + 1) 0 }
{
    (word >> (16 - 8 * place)) % 0x1_0000
}

/// A word whose byte at a place is the low byte of a value.
#[inline(always)]
pub(crate) fn with_byte_in(word: u32, place: usize, value: u32) -> u32
    requires { place < 4 }
    ensures { to_be_bytes w32 result ≡ slice_set (to_be_bytes w32 word) place (value % 2 ^ 8) }
{
    let shift = 24 - 8 * place;
    let old = (word >> shift) % 0x100;
    word - (old << shift) + ((value % 0x100) << shift)
}
