//! Turns with a word in their slots.

ghost use Rattle.std.specs.Prelude.{ℕ, Bool, option_map, ◌≡◌, true, false, Some, None, List, ◌∷◌, ◌++◌, length};
ghost use Rattle.std.specs.List.{list_all};
ghost use Rattle.pw_delay.specs.declared.items.Word.{Word};
ghost use Rattle.pw_delay.specs.declared.items.Turn.{Turn};
ghost use Rattle.pw_delay.specs.declared.items.Item.{Item};
ghost use Rattle.pw_delay.specs.declared.items.Item.TheVariants.{Plain, Turns};
ghost use Rattle.pw_delay.specs.Filling.{moves, filled};
ghost use Rattle.pw_run_languages.specs.Addresses.{Addresses};
ghost use Rattle.pw_run_languages.specs.LineRun.{LineProgram, Machine, and_then, left_behind, back_over, from_mark, function_at, function_named, is_plain, turns, step};
ghost use Rattle.pw_law_slots.specs.Passing.{LeadsOn};
ghost use Rattle.pw_law_slots.specs.Found.{AreFoundAlike, GoesOver};
ghost use Rattle.pw_law_slots.specs.SlotLaws.{filled_function, filled_program};

use pw_inst::actions_go_by_registers;

/// A turn that leads elsewhere than back inside its block, with a word in its slot that may move there, does in one step
/// what the word and then the turn with an empty slot do in two: the same calls and returns with the same links, the same
/// loads and stores in the same order.
pub fn turns_take_words()
    ensures { (p : LineProgram) (w : Addresses) (scratch : ℕ → (ℕ → ℕ) → ℕ → ℕ) (word : Word) (turn : Turn) (rest : List Item) (m : Machine) →
        LeadsOn turn → moves word.inst turn ≡ true → m.core.skip ≡ false →
        step p w scratch (left_behind (Turns turn (Some word) ∷ rest) m) ≡ and_then (step p w scratch (left_behind (Plain word ∷ Turns turn None ∷ rest) m)) (step p w scratch) }
{
    actions_go_by_registers();
}

/// Blocks begin in the items with filled slots where they begin in the others, with what stands behind them filled; and as
/// many turns are left at each place, so that the return addresses of calls are the same.
pub fn filled_items_lead_alike()
    ensures blocks { (b : ℕ) (behind : Bool) (items : List Item) → AreFoundAlike (from_mark b items) (from_mark b (filled behind items)) }
    ensures turns { (behind : Bool) (items : List Item) → turns (filled behind items) ≡ turns items }
{}

/// The functions of a program with filled slots are found by the same names, and stand at the same addresses.
pub fn filled_programs_name_alike()
    ensures named { (p : LineProgram) (name : List ℕ) → function_named (filled_program p) name ≡ option_map filled_function (function_named p name) }
    ensures standing { (p : LineProgram) (w : Addresses) (a : ℕ) → function_at (filled_program p) w a ≡ function_at p w a }
{}

/// A branch that goes back over so many words leads to the first of them, and it goes over words alone that stand directly
/// before it; and words that stand together stay together where slots are filled.
pub fn loops_go_over_words()
    ensures over { (items before here from : List Item) (n : ℕ) → items ≡ before ++ here → back_over n here items ≡ Some from → GoesOver before here from n }
    ensures back { (before words here : List Item) → list_all is_plain words ≡ true → back_over (length words) here (before ++ (words ++ here)) ≡ Some (words ++ here) }
    ensures stay { (behind : Bool) (words : List Item) → list_all is_plain words ≡ true → filled behind words ≡ words }
{}
