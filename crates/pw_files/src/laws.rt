//! The laws of what files share. The proofs of a format's own laws stand on the lemmas of
//! `proofs/RisingLaws`, `proofs/NameLists`, `proofs/KindLaws`, `proofs/ContentsLaws` and
//! `proofs/FaultLaws`.

ghost use Rattle.pw_fields.specs.FieldLaws.{AreBytes, Spells};
ghost use Rattle.pw_files.specs.Kinds.{kind, scalar, kind_at, scalar_at};

/// What is read of a kind is spelled so, and what is spelled so is read again, whatever follows.
#[tactic(auto, using(crate::proofs::KindLaws::kind_spells, crate::proofs::KindLaws::scalar_spells))]
pub fn kinds_are_spelled()
    ensures any { Spells kind (λ k. Unit {0}) kind_at }
    ensures of_scalars { Spells scalar (λ k. Unit {0}) scalar_at }
{}

/// What stands in bytes are numbers that a byte can hold.
pub fn are_bytes(bytes: &[u8])
    ensures { AreBytes bytes.now }
{}
