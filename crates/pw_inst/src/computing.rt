//! What instructions do, by the registers that they name.

ghost use Rattle.std.specs.Prelude.{◌≡◌, ℕ, Contains};
ghost use Rattle.pw_inst.specs.declared.Inst.{Inst as AnyInst};
ghost use Rattle.pw_inst.specs.Computing.{action, registers_put, source_registers, target_registers};

/// What an instruction does depends on no registers but its sources, and it puts words into its targets and into no
/// other registers.
#[tactic(auto, using(crate::proofs::ActionLaws::same_action, crate::proofs::ActionLaws::same_targets))]
pub fn actions_go_by_registers()
    ensures sources { (i : AnyInst) (f g : ℕ → ℕ) (shift : ℕ) →
        ((r : ℕ) → Contains (source_registers i) r → f r ≡ g r) → action f shift i ≡ action g shift i }
    ensures targets { (i : AnyInst) (f : ℕ → ℕ) (shift : ℕ) → registers_put (action f shift i) ≡ target_registers i }
{}
