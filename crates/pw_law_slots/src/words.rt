//! Words that may move, and registers that they do not name.

ghost use Rattle.std.specs.Prelude.{ℕ, ◌≡◌, true, false, Some, [], ◌∷◌, ◌++◌};
ghost use Rattle.pw_inst.specs.declared.Inst.{Inst};
ghost use Rattle.pw_inst.specs.Computing.{source_registers, target_registers};
ghost use Rattle.pw_delay.specs.declared.items.Word.{Word};
ghost use Rattle.pw_delay.specs.Filling.{goes_on, have_common, but_zero};
ghost use Rattle.pw_run_languages.specs.Addresses.{Addresses};
ghost use Rattle.pw_run_languages.specs.Acts.{Core, Acts, register, with_register, acts, settled};
ghost use Rattle.pw_law_slots.specs.Moving.{MovedNeverStop, MovedPassNothing, MovedLeaveLinks};
ghost use Rattle.pw_law_slots.specs.Passing.{past, does_not_turn};

use pw_inst::actions_go_by_registers;

/// A word that is no turn does the same before and after a register takes a word, where it neither reads nor writes that
/// register, or where that is register 0.
pub fn words_pass_registers()
    ensures { (w : Addresses) (i : Inst) (r v : ℕ) (c : Core) → does_not_turn i ≡ true → c.skip ≡ false →
        have_common (source_registers i ++ target_registers i) (but_zero (r ∷ [])) ≡ false →
        acts w (Some i) (with_register r v c) ≡ past (with_register r v) (acts w (Some i) c) }
{
    actions_go_by_registers();
}

/// Registers that it does not write hold what they held, and the next word is not passed over behind it.
pub fn words_keep_registers()
    ensures { (w : Addresses) (i : Inst) (r : ℕ) (c d : Core) → does_not_turn i ≡ true → c.skip ≡ false →
        have_common (target_registers i) (r ∷ []) ≡ false → acts w (Some i) c ≡ Acts d → (register d r ≡ register c r) × (d.skip ≡ false) }
{
    actions_go_by_registers();
}

/// A word with its address in it names the same registers, and is a turn where it is one without.
pub fn settled_words_move_alike()
    ensures sources { (w : Addresses) (word : Word) (i : Inst) → settled w word ≡ Some i → source_registers i ≡ source_registers word.inst }
    ensures targets { (w : Addresses) (word : Word) (i : Inst) → settled w word ≡ Some i → target_registers i ≡ target_registers word.inst }
    ensures turns { (w : Addresses) (word : Word) (i : Inst) → settled w word ≡ Some i → does_not_turn i ≡ does_not_turn word.inst }
{}

/// A word that may move neither stops the run nor passes over the next word, and one that moves into the slot of a turn leaves
/// the register of its link as it is.
pub fn moved_words_go_on()
    ensures stays { MovedNeverStop }
    ensures runs { MovedPassNothing }
    ensures links { MovedLeaveLinks }
{
    actions_go_by_registers();
}
