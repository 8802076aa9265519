//! Words of a machine's memory, and what stands in them.

ghost use Rattle.std.specs.Prelude.{◌≡◌, ◌<◌, ◌≤◌, ◌-◌, ◌*◌, ◌^◌, ◌+ℤ◌, pos, nat_le, if◌then◌else◌};
ghost use Rattle.pw_debug.specs.Walk.{word_in, of_kind, cut, in_memory};

use pw_flow::kind_size;
use pw_machine::Machine;
use pw_value::Kind;

/// The word at an address, if a whole one stands there.
pub fn word_in(machine: &Machine, address: u32) -> Option<u32>
    ensures { result ≡ word_in machine.now.core.memory (pos address) }
{
    machine.word_at(address)
}

/// The word that stands so far from an address, if a whole one stands there.
pub fn word_beside(machine: &Machine, address: u32, offset: i32) -> Option<u32>
    ensures { result ≡ word_in machine.now.core.memory (pos address +ℤ offset) }
{
    match u32::try_from(i64::from(address) + i64::from(offset)) {
        Ok(beside) => word_in(machine, beside),
        Err(_) => None,
    }
}

/// A number below a range as a word: one that is at least half of the range stands for the negative number that is less
/// by the whole range.
fn signed(low: u32, range: u32) -> u32
    requires { low < range }
    ensures { result ≡ (if nat_le range (2 * low) then 2 ^ 32 - (range - low) else low) }
{
    if u64::from(range) <= 2 * u64::from(low) {
        u32::MAX - (range - low - 1)
    } else {
        low
    }
}

/// The value of a kind in the low bytes of a word, as a word.
pub fn of_kind(kind: Kind, word: u32) -> u32
    ensures { result ≡ of_kind kind word }
{
    match kind {
        Kind::S8 => signed(word % 0x100, 0x100),
        Kind::U8 => word % 0x100,
        Kind::S16 => signed(word % 0x1_0000, 0x1_0000),
        Kind::U16 => word % 0x1_0000,
        Kind::W32 => word,
    }
}

/// Bytes that end so far into a word, as its low bytes.
fn cut(end: u32, word: u32) -> u32
    requires { (1 ≤ end) × (end ≤ 4) }
    ensures { result ≡ cut end word }
{
    match end {
        1 => word / 0x100_0000,
        2 => word / 0x1_0000,
        3 => word / 0x100,
        _ => word,
    }
}

/// What memory holds at an address by a kind, if its bytes stand in one word.
pub fn in_memory(machine: &Machine, kind: Kind, address: u32) -> Option<u32>
    ensures { result ≡ in_memory machine.now.core.memory kind address }
{
    let end = address % 4 + kind_size(kind);
    if end > 4 {
        return None;
    }
    let word = word_in(machine, address - address % 4)?;
    Some(of_kind(kind, cut(end, word)))
}
