//! Numbers as far as so many bits can tell them.

ghost use Rattle.std.specs.Prelude.{◌≡◌};
ghost use Rattle.pw_value.specs.Caps.{clipped, capped};

/// A number as far as 32 bits can tell it: a greater one is the greatest that they can.
pub fn clip(number: u128) -> u32
    ensures { result ≡ clipped number }
{
    number.min(u128::from(u32::MAX)) as u32
}

/// A number as far as 64 bits can tell it: a greater one is the greatest that they can.
pub fn cap(number: u128) -> u64
    ensures { result ≡ capped number }
{
    number.min(u128::from(u64::MAX)) as u64
}
