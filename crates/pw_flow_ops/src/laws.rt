//! The laws of operations and ends as bytes. The proofs of the formats that hold them stand on the lemmas of
//! `proofs/OpLaws`, `proofs/EndLaws` and `proofs/PartLaws`, and on `proofs/FieldChains`.

ghost use Rattle.std.specs.Prelude.{◌≡◌, ◌<◌, ◌≤◌, ◌^◌, ℕ, List};
ghost use Rattle.pw_fields.specs.FieldLaws.{Spells};
ghost use Rattle.pw_fields.specs.FieldNames.{IsNameTable};
ghost use Rattle.pw_flow.specs.ValidFlow.{IsEnd};
ghost use Rattle.pw_flow_ops.specs.Operations.{absent, op, ending, OpFits};
ghost use Rattle.pw_flow_ops.specs.Reading.{op_at, end_at};

use crate::parts::ABSENT;

/// What stands for a result that is not there is the number of the definitions.
pub fn absent_is_the_number()
    ensures { ABSENT ≡ absent }
{}

/// What is read of an operation is spelled so and lawful, and what is lawful and spelled so is read again,
/// whatever follows.
pub fn operations_are_spelled()
    ensures { (names : List (List ℕ)) → IsNameTable names → (temps slots : ℕ) → temps < 2 ^ 31 → slots < 2 ^ 31 → Spells (op names) (OpFits names temps slots) (op_at names temps slots) }
{}

/// The same of the ends of blocks.
pub fn ends_are_spelled()
    ensures { (temps blocks : ℕ) → temps < 2 ^ 31 → blocks ≤ 2 ^ 32 → Spells ending (IsEnd temps blocks) (end_at temps blocks) }
{}
