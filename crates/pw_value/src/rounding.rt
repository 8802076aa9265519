//! Counts of bytes at the next place of eight, and the start of the stack.

ghost use Rattle.std.specs.Prelude.{◌≡◌, ◌≤◌, ◌+◌, ◌<◌, ◌^◌};
ghost use Rattle.pw_value.specs.Caps.{capped};
ghost use Rattle.pw_value.specs.Rounding.{round8, slot_room, stack_start};

/// A count of bytes, rounded up to a multiple of 8.
pub fn round8(bytes: u64) -> u64
    requires { bytes < 2 ^ 63 }
    ensures value { result ≡ round8 bytes }
    ensures up { bytes ≤ result }
    ensures near { result ≤ bytes + 7 }
{
    (bytes + 7) / 8 * 8
}

/// What an object takes of a frame or of the data: a byte more than its size, rounded up to a multiple of 8.
pub fn slot_room(size: u32) -> u64
    ensures value { result ≡ slot_room size }
    ensures up { size + 1 ≤ result }
    ensures near { result ≤ size + 8 }
{
    round8(u64::from(size) + 1)
}

/// Where the stack begins above data that end at an address: 64 bytes above that, rounded up to a multiple
/// of 64. The number stands still at 2^64 - 1.
pub fn stack_start(data_end: u64) -> u64
    ensures value { result ≡ capped (stack_start data_end) }
    ensures near { result ≤ data_end + 127 }
{
    (data_end.saturating_add(63) / 64 * 64).saturating_add(64)
}
