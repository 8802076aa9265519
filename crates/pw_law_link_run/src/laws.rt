//! What the machine does where the items of the program's functions stand in its text.

ghost use Rattle.std.specs.Prelude.{ℕ, suc, ℤ, ◌≡◌, ◌≢◌, ◌*◌, [], ◌++◌, ◌+◌, ◌%◌, ◌^◌, ◌≤◌, ◌<◌, ◌==◌, Bool, true, false, if◌then◌else◌, Option, Some, None, List, ◌∷◌, Contains, length};
ghost use Rattle.std.specs.List.{AllByRecursion};
ghost use Rattle.pw_inst.specs.declared.Inst.{Inst};
ghost use Rattle.pw_inst.specs.declared.Inst.TheVariants.{Combf};
ghost use Rattle.pw_inst.specs.InstructionTable.{decoded, IsInRange};
ghost use Rattle.pw_machine.specs.Core.{Core, register, word_at};
ghost use Rattle.pw_machine.specs.Run.{State};
ghost use Rattle.pw_machine.specs.Start.{stack_start_of, image_start};
ghost use Rattle.pw_image.specs.declared.image.Memory.{Memory};
ghost use Rattle.pw_value.specs.ProgramNames.{start_name};
ghost use Rattle.pw_inst.specs.Computing.{condition};
ghost use Rattle.pw_machine.specs.Effect.{is_in_text, effect_of};
ghost use Rattle.pw_law_code.specs.Lawful.{IsLawfulCore, IsLawful};
ghost use Rattle.pw_delay.specs.declared.items.Word.{Word};
ghost use Rattle.pw_delay.specs.declared.items.Item.{Item};
ghost use Rattle.pw_delay.specs.declared.items.Item.TheVariants.{Plain, Turns, Mark};
ghost use Rattle.pw_delay.specs.declared.items.Turn.TheVariants.{Back, Goto, If};
ghost use Rattle.pw_delay.specs.Placement.{size};
ghost use Rattle.pw_run_languages.specs.Addresses.{Addresses};
ghost use Rattle.pw_run_languages.specs.Acts as lines;
ghost use Rattle.pw_run_languages.specs.Acts.{acts};
ghost use Rattle.pw_run_languages.specs.LineRun.{LineFn, Frame, Machine, On, function_named, left_behind, counted, does, to_block, words_back, goes_back, return_address, enters, returns, through_slot, steps, start, line_run};
ghost use Rattle.pw_run.specs.Runs.{Refines, Same};
ghost use Rattle.pw_milli.specs.Words.{divs_words, divu_words, mul_words, rems_words, remu_words};
ghost use Rattle.pw_milli.specs.Calls.{Enters};
ghost use Rattle.pw_run_languages.specs.MachineRun.{start_state, traced_run};
ghost use Rattle.pw_run_languages.specs.CodeStands.{IsReady};
ghost use Rattle.pw_inst.specs.declared.line.Line.{Line};
ghost use Rattle.pw_alloc.specs.declared.located.Located.{Located};
ghost use Rattle.pw_select.specs.Selection.{selected};
ghost use Rattle.pw_alloc.specs.Frames.{head_size, slots_begin, last_reach};
ghost use Rattle.pw_webflow.specs.declared.web.WebBlock.{WebBlock};
ghost use Rattle.pw_run_languages.specs.SelectionLaws.{arranged};
ghost use Rattle.pw_law_link_run.specs.Showing.{Shows, DoesSo};
ghost use Rattle.pw_law_link_run.specs.Steps.{Setting, map_in, IsSetting, Arrives, is_back, AreInData};
ghost use Rattle.pw_law_link_run.specs.Placing.{name_in, own_address, words_of, Parts};
ghost use Rattle.pw_law_link_run.specs.Simulating.{calls_from, noted_by, IsLinked, IsCaller, Simulates, IsCalm, IsCalmInside, IsCalmPast, leaving, HasLibrary, IsFit};
ghost use Rattle.pw_law_link_run.specs.Meeting.{Meets, IsHighBehind};
ghost use Rattle.pw_law_link_run.specs.Behind.{AllStand};
ghost use Rattle.pw_law_link_run.specs.Leaving.{AreByRegisters, Leaves};
ghost use Rattle.pw_law_link_run.specs.Routines.{HasRoutines, LeaveSo, IsSteadyRun, Makes};
ghost use Rattle.pw_law_link_run.specs.Leveled.{AreFramed, IsFramed, IsPassing, IsMet};
ghost use Rattle.pw_law_link_run.specs.Starting.{IsStart, HasData};
ghost use Rattle.pw_law_link_run.specs.Conventional.{IsConventional};

use pw_law_code::{runs_keep_lawful_states, words_of_the_text_stay};
use pw_law_slots::moved_words_go_on;
use pw_machine::{runs_add_up, runs_go_on};
use pw_milli::{divs_divides, divu_divides, mul_multiplies, rems_divides, remu_divides};

/// Where an instruction of a word is next, the machine does what the word does in the run of lines: it goes on to a
/// core that shows the word's result, or stops for want of stack. Where the word may not act, nothing is said.
#[tactic(auto, using(crate::proofs::Words::word_done))]
pub fn words_are_done()
    ensures { (w : Addresses) (c : lines.Core) (core : Core) (i : Inst) → core.data_start ≡ w.data_start → IsLawfulCore core → IsInRange i → Shows c core →
        is_in_text core core.front ≡ true → decoded (word_at core.memory core.front) ≡ Some i → DoesSo core (effect_of core) (acts w (Some i) c) }
{}

/// From a state of the lines that the machine shows, a word leads to one that it shows after one step more, with what
/// it notes; the beginning of a block takes no step. Nothing returns and nothing is called where the lines are then.
#[tactic(auto, using(crate::proofs::Items::word_simulates, crate::proofs::Items::mark_simulates))]
pub fn words_are_met()
    ensures word { (x : Setting) → IsLinked x → (k : ℕ) (m t : Machine) (word : Word) (rest : List Item) →
        Simulates x (left_behind (Plain word ∷ rest) m) k → does x.program x.addresses word (left_behind rest m) ≡ On t → IsCalm x t → Simulates x t (suc k) }
    ensures block { (x : Setting) (k b : ℕ) (m : Machine) (rest : List Item) → Simulates x (left_behind (Mark b ∷ rest) m) k → Simulates x (left_behind rest m) k }
{}

/// A jump to a block, a conditional branch, short or long, and a loop inside a block lead from a state that the machine
/// shows to one that it shows some steps later, whatever stands in the slot; of a conditional branch the stack pointer
/// behind the slot is above those of all active calls.
#[tactic(auto, using(crate::proofs::Items::goto_simulates, crate::proofs::Items::if_simulates, crate::proofs::Items::back_simulates))]
pub fn branches_are_met()
    ensures jump { (x : Setting) → IsLinked x → (k b : ℕ) (slot : Option Word) (m t : Machine) (rest : List Item) →
        Simulates x (left_behind (Turns (Goto b) slot ∷ rest) m) k → m.core.skip ≡ false → through_slot x.program x.addresses slot (to_block b) (counted (left_behind (Turns (Goto b) slot ∷ rest) m)) ≡ On t →
        IsCalmInside x (left_behind (Turns (Goto b) slot ∷ rest) m) 2 → IsCalm x t → Simulates x t (suc (suc k)) }
    ensures branch { (x : Setting) → IsLinked x → (k r b : ℕ) (slot : Option Word) (m t : Machine) (rest : List Item) →
        Simulates x (left_behind (Turns (If r b) slot ∷ rest) m) k → m.core.skip ≡ false → IsHighBehind x m (Turns (If r b) slot) →
        (if lines.register m.core r == 0 then through_slot x.program x.addresses slot On (left_behind rest m)
        else through_slot x.program x.addresses slot (to_block b) (counted (left_behind (Turns (If r b) slot ∷ rest) m))) ≡ On t →
        IsCalmInside x (left_behind (Turns (If r b) slot ∷ rest) m) (size (x.long (name_in m.frame.function)) (Turns (If r b) slot)) → IsCalm x t → (j : ℕ) × Simulates x t j }
    ensures back { (x : Setting) → IsLinked x → (k j r u : ℕ) (disp : ℤ) (slot : Option Word) (m t : Machine) (rest : List Item) →
        Simulates x (left_behind (Turns (Back (Combf j r u disp)) slot ∷ rest) m) k → m.core.skip ≡ false →
        (if (if condition j (lines.register m.core r) (lines.register m.core u) then false else true)
        then through_slot x.program x.addresses slot (goes_back (words_back disp) (Turns (Back (Combf j r u disp)) slot ∷ rest)) (counted (left_behind (Turns (Back (Combf j r u disp)) slot ∷ rest) m))
        else through_slot x.program x.addresses slot On (left_behind rest m)) ≡ On t →
        IsCalmInside x (left_behind (Turns (Back (Combf j r u disp)) slot ∷ rest) m) 2 → IsCalm x t → Simulates x t (suc (suc k)) }
{}

/// Where the machine arrives at a function's address, with the return address in register 2, it shows the state of the
/// lines in which the function is entered; and after a return that in which the caller goes on. It notes the call and
/// the return as the lines do.
#[tactic(auto, using(crate::proofs::Calls::enters_simulates, crate::proofs::Calls::return_simulates))]
pub fn calls_are_met()
    ensures entry { (x : Setting) → IsLinked x → (k : ℕ) (g : LineFn) (m : Machine) → Contains x.program.functions g → IsCaller x m.frame → AllByRecursion (IsCaller x) m.callers →
        lines.register m.core 2 ≡ return_address x.addresses m.frame m.frame.left →
        Arrives x k m.core (own_address x g) ((own_address x g + 4) % 2 ^ 32) m.rest m.out (noted_by x m) → m.events + 1 ≤ k → m.read + length m.rest ≡ length x.start.rest → m.core.skip ≡ false →
        AllByRecursion (λ call. is_back m.core (own_address x g) call ≡ false) (calls_from x m.frame m.callers) → AreInData x (calls_from x m.frame m.callers) →
        Simulates x (enters x.program x.addresses g m) k }
    ensures exit { (x : Setting) → IsLinked x → (k : ℕ) (slot : Option Word) (m t : Machine) (rest : List Item) (caller : Frame) (callers : List Frame) →
        Simulates x (leaving m slot rest caller callers) k → m.core.skip ≡ false →
        through_slot x.program x.addresses slot (returns x.program x.addresses (lines.register m.core 2)) (left_behind rest (leaving m slot rest caller callers)) ≡ On t →
        IsCalmPast x (leaving m slot rest caller callers) slot → IsCalm x t → AreInData x (calls_from x caller callers) → Simulates x t (suc (suc k)) }
{}

/// A routine that is entered leaves the result that the run of lines has, in register 29, and changes scratch registers
/// alone.
pub fn routines_leave_results()
    ensures divs { (address : ℕ) (s : State) → Enters divs_words address s → Makes divs_words address s 0 }
    ensures divu { (address : ℕ) (s : State) → Enters divu_words address s → Makes divu_words address s 1 }
    ensures mul { (address : ℕ) (s : State) → Enters mul_words address s → Makes mul_words address s 2 }
    ensures rems { (address : ℕ) (s : State) → Enters rems_words address s → Makes rems_words address s 3 }
    ensures remu { (address : ℕ) (s : State) → Enters remu_words address s → Makes remu_words address s 4 }
{
    divs_divides();
    divu_divides();
    mul_multiplies();
    rems_divides();
    remu_divides();
}

/// What a routine of arithmetic leaves in the registers is a function of the registers at its first word, where it
/// stands at an address and returns below it: the instructions of the five read and write general registers alone, and
/// from two states with the same registers such words leave the same.
#[tactic(auto, using(crate::proofs::ByRegisters::divs_by_registers, crate::proofs::ByRegisters::divu_by_registers, crate::proofs::ByRegisters::mul_by_registers, crate::proofs::ByRegisters::rems_by_registers, crate::proofs::ByRegisters::remu_by_registers))]
pub fn routines_leave_by_registers()
    ensures divs { AreByRegisters divs_words }
    ensures divu { AreByRegisters divu_words }
    ensures mul { AreByRegisters mul_words }
    ensures rems { AreByRegisters rems_words }
    ensures remu { AreByRegisters remu_words }
    ensures alike { (words : List ℕ) (address : ℕ) (s t : State) (d : Leaves words address s) (e : Leaves words address t) → AreByRegisters words →
        Enters words address s → Enters words address t → s.core.registers ≡ t.core.registers → register s.core 31 < address → d.registers ≡ e.registers }
{}

/// The run of lines is met by the machine's run, with the same log, where the machine shows its start, and each of its
/// states is steady: nothing seems to return or to be called but what the lines return from and call; the words that
/// routines leave are those that the lines take.
pub fn steady_runs_are_met()
    ensures { (x : Setting) → IsLinked x → HasLibrary x → (has : HasRoutines x) (scratch : ℕ → (ℕ → ℕ) → ℕ → ℕ) → LeaveSo x has scratch → (core : Core) (input : List ℕ) → x.start ≡ start_state core input →
        Meets x (start x.program x.addresses input) → IsSteadyRun x scratch (start x.program x.addresses input) →
        Refines Same (line_run x.program x.addresses scratch input) (traced_run (map_in x) core input) }
{}

/// The run of lines is met by the machine's run, with the same log, where the items of each function keep the stack
/// pointer: at its end at every block and turn but a return, and as at the call before a return, with no return address
/// where it is lower; and where the machine starts at the entry with the core of the lines. The lines take the words
/// that the routines leave: a function of the routine and of the registers at its first word.
pub fn framed_runs_are_met()
    ensures { (x : Setting) → IsLinked x → HasLibrary x → HasRoutines x → AreFramed x → (scratch : ℕ → (ℕ → ℕ) → ℕ → ℕ) × ((core : Core) (input : List ℕ) (f : LineFn) →
        x.start ≡ start_state core input → IsStart x f input → Refines Same (line_run x.program x.addresses scratch input) (traced_run (map_in x) core input)) }
{}

/// Where the items of each function keep the stack pointer, each step of the run of lines comes to what the machine
/// comes to at some step, with the same log; and there each active function's stack pointer is at the end of its
/// caller's frame.
pub fn framed_steps_are_met()
    ensures { (x : Setting) → IsLinked x → HasLibrary x → HasRoutines x → (fr : AreFramed x) → (scratch : ℕ → (ℕ → ℕ) → ℕ → ℕ) × ((input : List ℕ) (f : LineFn) → IsStart x f input →
        (n : ℕ) → IsMet x fr (steps x.program x.addresses scratch n (start x.program x.addresses input))) }
{}

/// A lawful state whose data begin where the lines have them is one from which the machine's run keeps its text.
pub fn lawful_starts_are_settings()
    ensures { (x : Setting) → IsLawful x.start → x.start.core.data_start ≡ x.addresses.data_start → IsSetting x }
{
    runs_keep_lawful_states();
    words_of_the_text_stay();
    runs_add_up();
    runs_go_on();
}

/// Lines that words can be made of, and that call as the convention has it, are items that fit, with words in their slots.
pub fn ready_lines_fit()
    ensures { (x : Setting) (lines : List Line) → AllByRecursion IsReady lines → AllByRecursion IsConventional lines → AllByRecursion (IsFit x) (arranged lines) }
{
    moved_words_go_on();
}

/// What is selected of a function calls by the convention: functions by register 2, routines by register 31.
pub fn selected_calls_are_conventional()
    ensures { (f : Located) → AllByRecursion IsConventional (selected f) }
{}

/// Whatever stands behind a caller's function stands behind its return address, since a word follows each call: also
/// where the function ends with a jump, and no call is at its end.
#[tactic(auto, using(crate::proofs::Levels::caller_below))]
pub fn callers_return_inside()
    ensures { (x : Setting) (g : Frame) (a : ℕ) → IsFramed x g.function → IsCaller x g → own_address x g.function + 4 * words_of x g.function g.function.items ≤ a →
        return_address x.addresses g g.left < a }
{}

/// Where their words stand behind all functions, and no function begins inside, the library and the routines are there.
pub fn library_is_there()
    ensures library { (x : Setting) → AreFramed x → AllStand x → HasLibrary x }
    ensures routines { (x : Setting) → AreFramed x → AllStand x → HasRoutines x }
{
    routines_leave_results();
}

/// The state in which the program of an image begins is the start of the lines, where its entry, its stack and its data
/// are those of the lines.
pub fn images_start_as_lines()
    ensures { (x : Setting) (m : Memory) (f : LineFn) (input : List ℕ) → x.start ≡ start_state (image_start m) input → function_named x.program start_name ≡ Some f →
        m.entry ≡ own_address x f → x.addresses.base ≡ stack_start_of m.words m.data_size → x.addresses.base < 2 ^ 32 → HasData x m → IsStart x f input }
{}

/// The items of a selected function begin with words, and go on behind all but jumps and returns; its frame holds the
/// saved registers and what stands nearest to the stack pointer.
pub fn selected_items_are_shaped()
    ensures begin { (x : Setting) (g : LineFn) (f : Located) → g.items ≡ arranged (selected f) → (before left : List Item) → Parts g before left → before ≢ [] → 1 ≤ words_of x g before }
    ensures go_on { (x : Setting) (g : LineFn) (f : Located) (b : WebBlock) (blocks : List WebBlock) → g.items ≡ arranged (selected f) → f.body.blocks ≡ b ∷ blocks →
        (before rest : List Item) (item : Item) → Parts g before (item ∷ rest) → IsPassing item → 1 ≤ words_of x g rest }
    ensures frame { (f : Located) (n : ℕ) → f.frame ≡ last_reach (slots_begin (head_size f.body) (length f.saved) n) f.body.slots → 4 * length f.saved + head_size f.body ≤ f.frame }
{}
