//! The laws of the fields, for whoever writes a format of them. The proofs of a format's own laws stand
//! on the lemmas of `proofs/FieldLaws`, `proofs/FieldSteps`, `proofs/NameLaws` and `proofs/FileLaws`.

ghost use Rattle.std.specs.Prelude.{ℕ, List, length, Contains, ◌≡◌, ◌<◌, ◌^◌, IsTrue, nat_lt, Ok};
ghost use Rattle.pw_fields.specs.Fields.{u8, u32, u64, text, flag, FitsU8, FitsU32, FitsU64, FitsText, u8_at, u32_at, u64_at, text_at, choice_at, flag_at};
ghost use Rattle.pw_fields.specs.FieldLaws.{AreBytes, Spells};
ghost use Rattle.pw_fields.specs.FieldNames.{names_at, name_table, IsNameTable, name_at, name_index, IsTableOf};
ghost use Rattle.pw_fields.specs.FieldFrame.{file_at, any_payload, any_spelling, FitsAny, IsFileOf};

/// What is read of a single field is spelled so, and what is spelled so is read again, whatever follows.
#[tactic(auto, using(crate::proofs::FieldLaws::u8_spells, crate::proofs::FieldLaws::u32_spells, crate::proofs::FieldLaws::u64_spells, crate::proofs::FieldLaws::text_spells, crate::proofs::FieldLaws::choice_spells, crate::proofs::FieldLaws::flag_spells))]
pub fn single_fields_are_spelled()
    ensures byte { Spells u8 FitsU8 u8_at }
    ensures four_bytes { Spells u32 FitsU32 u32_at }
    ensures eight_bytes { Spells u64 FitsU64 u64_at }
    ensures text { Spells text FitsText text_at }
    ensures choice { (n : ℕ) → Spells u8 (λ b. FitsU8 b × IsTrue (nat_lt b n)) (choice_at n) }
    ensures truth { Spells flag (λ b. Unit {0}) flag_at }
{}

/// The same of the table of names and of a name by its index in it.
#[tactic(auto, using(crate::proofs::NameLaws::names_spell, crate::proofs::NameLaws::name_spells))]
pub fn names_are_spelled()
    ensures table { Spells name_table IsNameTable names_at }
    ensures index { (names : List (List ℕ)) → IsNameTable names → Spells (name_index names) (Contains names) (name_at names) }
{}

/// The names that are used have one table.
pub fn a_table_is_determined()
    ensures { (names others used : List (List ℕ)) → IsTableOf names used → IsTableOf others used → names ≡ others }
{}

/// What is read of a whole file is a file of the payload that is read, and such a file is read.
#[tactic(auto, using(crate::proofs::FileLaws::any_takes))]
pub fn files_are_framed()
    ensures found { (kind first last : ℕ) (bytes payload : List ℕ) → AreBytes bytes → file_at kind first last any_payload bytes ≡ Ok payload → IsFileOf kind first last any_spelling FitsAny bytes payload }
    ensures again { (kind first last : ℕ) (bytes payload : List ℕ) → kind < 2 ^ 32 → last < 2 ^ 32 → IsFileOf kind first last any_spelling FitsAny bytes payload → file_at kind first last any_payload bytes ≡ Ok payload }
{}
