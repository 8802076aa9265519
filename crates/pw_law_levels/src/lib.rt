//! Laws of levels, without code: selected code keeps the stack pointer, as linking wants it.
#![tactic(auto)]

ghost use Rattle.std.specs.Prelude.{ℕ, ◌≡◌, ◌≢◌, ◌+◌, ◌*◌, ◌<◌, ◌≤◌, Some, None, List, ◌∷◌, length};
ghost use Rattle.pw_alloc.specs.declared.located.Located.{Located};
ghost use Rattle.pw_alloc.specs.Frames.{head_size, slots_begin, last_reach};
ghost use Rattle.pw_select.specs.Selection.{selected};
ghost use Rattle.pw_delay.specs.declared.items.Item.{Item};
ghost use Rattle.pw_run_languages.specs.LineRun.{LineFn, back_over};
ghost use Rattle.pw_run_languages.specs.MachineRun.{function_at};
ghost use Rattle.pw_run_languages.specs.SelectionLaws.{arranged};
ghost use Rattle.pw_law_link_run.specs.Steps.{Setting, map_in};
ghost use Rattle.pw_law_link_run.specs.Placing.{own_address, words_of, Parts};
ghost use Rattle.pw_law_link_run.specs.Meeting.{IsTurning};
ghost use Rattle.pw_law_link_run.specs.Leveled.{IsLeveled, IsFramed};
ghost use Rattle.pw_law_levels.specs.Bodies.{IsPointed};
ghost use Rattle.pw_law_levels.specs.Sparing.{IsSparing};

use pw_delay::laws::parts_are_filled_alone;
use pw_inst::actions_go_by_registers;
use pw_law_link_run::laws::selected_items_are_shaped;
use pw_law_slots::loops_go_over_words;

/// A function that begins with words that put the stack pointer to the end of its frame, and leaves it there but for the
/// word before a return or in its slot, is leveled; a loop in it neither begins where the function does nor is without words.
pub fn pointed_functions_are_leveled()
    ensures leveled { (x : Setting) (f : LineFn) → IsPointed x f → IsLeveled x f }
    ensures loops { (x : Setting) (f : LineFn) → IsPointed x f → (before rest from : List Item) (item : Item) (n : ℕ) → Parts f before (item ∷ rest) → IsTurning item →
        back_over n (item ∷ rest) f.items ≡ Some from → (from ≢ f.items) × (1 ≤ words_of x f from) }
{
    loops_go_over_words();
}

/// What is selected of a function is such, where its temporaries, webs and saved registers are not the stack pointer.
pub fn selected_functions_are_pointed()
    ensures { (x : Setting) (g : LineFn) (f : Located) → g.located ≡ f → g.items ≡ arranged (selected f) → IsSparing f → IsPointed x g }
{
    actions_go_by_registers();
    parts_are_filled_alone();
}

/// What is selected of a function is framed, where its frame is that of its head, its saved registers and its slots,
/// and no function begins inside.
pub fn selected_functions_are_framed()
    ensures { (x : Setting) (g : LineFn) (f : Located) (n : ℕ) → g.located ≡ f → g.items ≡ arranged (selected f) → IsSparing f →
        f.frame ≡ last_reach (slots_begin (head_size f.body) (length f.saved) n) f.body.slots →
        ((m : ℕ) → 1 ≤ m → m < words_of x g g.items → function_at (map_in x) (own_address x g + 4 * m) ≡ None) → IsFramed x g }
{
    selected_items_are_shaped();
    pointed_functions_are_leveled();
    selected_functions_are_pointed();
}
