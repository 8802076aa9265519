//! Words with other values in their fields, as a linker sets them: the bits outside the fields stay,
//! whatever word it is.

ghost use Rattle.std.specs.Prelude.{ℕ, ℤ, ◌≡◌, ◌+◌, ◌*◌, ◌%◌, ◌^◌, ◌<◌, Bool};
ghost use Rattle.pw_inst.specs.Fields.{field, low_signed, twos_complement, IsSigned};
ghost use Rattle.pw_inst.specs.InstructionTable.{word_of, long_immediate, IsRegister};
ghost use Rattle.pw_inst.specs.Setting.{with_long_immediate, with_displacement, with_branch, branch_bits, left_part, right_part};
ghost use Rattle.pw_inst.specs.declared.Inst.TheVariants.{Ldb, Ldh, Ldw, Ldo, Stb, Sth, Stw, Ldil, Bl};

use crate::fields::{low_sign, place, read};

/// The left 21 bits of an address, which LDIL puts into a register.
pub fn left_part(address: u32) -> u32
    ensures value { result ≡ left_part address }
    ensures small { result < 2 ^ 21 }
{
    address >> 11
}

/// The right 11 bits of an address, which LDIL leaves to a displacement.
pub fn right_part(address: u32) -> u32
    ensures value { result ≡ right_part address }
    ensures small { result < 2 ^ 11 }
{
    address & 0x7ff
}

/// The word with the low 21 bits of a number in its bits 11 to 31, as LDIL has them.
#[tactic(auto, using(crate::proofs::SettingLaws::long_held, crate::proofs::SettingLaws::long_others))]
pub fn set_long_immediate(word: u32, im: u32) -> u32
    ensures value { result ≡ with_long_immediate word im }
    ensures assembled { long_immediate result ≡ im % 2 ^ 21 }
    ensures others { field 0 11 result ≡ field 0 11 word }
{
    place_long_immediate(word, im)
}

#[tactic(auto, unfolding(crate::specs::Setting::with_long_immediate))]
fn place_long_immediate(word: u32, im: u32) -> u32
    ensures { result ≡ with_long_immediate word im }
{
    place(0, 11, read(word, 0, 11))
        + place(11, 5, im >> 2 & 31)
        + place(16, 2, im >> 7 & 3)
        + place(18, 2, im & 3)
        + place(20, 11, im >> 9 & 0x7ff)
        + place(31, 1, im >> 20 & 1)
}

/// The word with a number in its bits 18 to 31, as loads, stores and LDO have it.
#[tactic(auto, using(crate::proofs::SettingLaws::displacement_held, crate::proofs::SettingLaws::displacement_others), unfolding(crate::specs::Setting::with_displacement))]
pub fn set_displacement(word: u32, im: i32) -> u32
    requires { IsSigned 14 im }
    ensures value { result ≡ with_displacement word im }
    ensures held { low_signed 14 (field 18 14 result) ≡ im }
    ensures others { field 0 18 result ≡ field 0 18 word }
{
    place(0, 18, read(word, 0, 18)) + place(18, 14, low_sign(im, 14))
}

/// The word with the low 17 bits of a number in its bits 11 to 15, 19 to 29 and 31, as BL has them.
#[tactic(auto, using(crate::proofs::SettingLaws::branch_held, crate::proofs::SettingLaws::branch_begin, crate::proofs::SettingLaws::branch_middle, crate::proofs::SettingLaws::branch_nullifies))]
pub fn set_branch(word: u32, q: u32) -> u32
    ensures value { result ≡ with_branch word q }
    ensures held { branch_bits result ≡ q % 2 ^ 17 }
    ensures begin { field 0 11 result ≡ field 0 11 word }
    ensures middle { field 16 3 result ≡ field 16 3 word }
    ensures nullifies { field 30 1 result ≡ field 30 1 word }
{
    place_branch(word, q)
}

#[tactic(auto, unfolding(crate::specs::Setting::with_branch))]
fn place_branch(word: u32, q: u32) -> u32
    ensures { result ≡ with_branch word q }
{
    place(0, 11, read(word, 0, 11))
        + place(11, 5, q >> 11 & 31)
        + place(16, 3, read(word, 16, 3))
        + place(19, 10, q & 0x3ff)
        + place(29, 1, q >> 10 & 1)
        + place(30, 1, read(word, 30, 1))
        + place(31, 1, q >> 16 & 1)
}

/// On the word of LDIL, of a load, a store or LDO, and of BL, the word that is set is that of the
/// instruction with the other number.
pub fn set_words_are_encodings()
    ensures ldil { (im t new : ℕ) → IsRegister t → new < 2 ^ 21 → with_long_immediate (word_of (Ldil im t)) new ≡ word_of (Ldil new t) }
    ensures ldo { (im new : ℤ) (b t : ℕ) → IsSigned 14 im → IsRegister b → IsRegister t → with_displacement (word_of (Ldo im b t)) new ≡ word_of (Ldo new b t) }
    ensures ldb { (im new : ℤ) (b t : ℕ) → IsSigned 14 im → IsRegister b → IsRegister t → with_displacement (word_of (Ldb im b t)) new ≡ word_of (Ldb new b t) }
    ensures ldh { (im new : ℤ) (b t : ℕ) → IsSigned 14 im → IsRegister b → IsRegister t → with_displacement (word_of (Ldh im b t)) new ≡ word_of (Ldh new b t) }
    ensures ldw { (im new : ℤ) (b t : ℕ) → IsSigned 14 im → IsRegister b → IsRegister t → with_displacement (word_of (Ldw im b t)) new ≡ word_of (Ldw new b t) }
    ensures stb { (r : ℕ) (im new : ℤ) (b : ℕ) → IsSigned 14 im → IsRegister b → IsRegister r → with_displacement (word_of (Stb r im b)) new ≡ word_of (Stb r new b) }
    ensures sth { (r : ℕ) (im new : ℤ) (b : ℕ) → IsSigned 14 im → IsRegister b → IsRegister r → with_displacement (word_of (Sth r im b)) new ≡ word_of (Sth r new b) }
    ensures stw { (r : ℕ) (im new : ℤ) (b : ℕ) → IsSigned 14 im → IsRegister b → IsRegister r → with_displacement (word_of (Stw r im b)) new ≡ word_of (Stw r new b) }
    ensures bl { (disp new : ℤ) (t : ℕ) (n : Bool) → IsSigned 17 disp → IsSigned 17 new → IsRegister t → with_branch (word_of (Bl disp t n)) (twos_complement 17 new) ≡ word_of (Bl new t n) }
{}

/// The two parts of an address make it again, as LDIL and a displacement add them.
pub fn parts_make_the_address()
    ensures { (address : ℕ) → left_part address * 2 ^ 11 + right_part address ≡ address }
{}
