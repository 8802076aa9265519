//! Sets of registers, as the bits of a word.

ghost use Rattle.std.specs.Prelude.{◌≡◌, ◌⊎◌, ◌<◌, ◌↔◌, ℕ};
ghost use Rattle.pw_alloc_masks.specs.Masks.{in_mask, HasRegister};

/// A set with one more register.
pub fn with_register(mask: u32, r: u8) -> u32
    requires { r < 32 }
    ensures { (k : ℕ) → HasRegister result k ↔ (HasRegister mask k ⊎ (k ≡ r)) }
{
    mask | 1u32 << r
}

/// The registers of two sets.
pub fn both(a: u32, b: u32) -> u32
    ensures { (k : ℕ) → HasRegister result k ↔ (HasRegister a k ⊎ HasRegister b k) }
{
    a | b
}

/// Whether register `r` (0 to 31) is in a set: bit `r` of the word.
pub fn has_register(mask: u32, r: u8) -> bool
    requires { r < 32 }
    ensures { result ≡ in_mask mask r }
{
    (mask >> r) & 1 == 1
}
