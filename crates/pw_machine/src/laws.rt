// Laws of the machine's runs and of its memory, for whoever reasons about programs.

ghost use Rattle.std.specs.Prelude.{◌≡◌, ℕ, ◌+◌, ◌*◌, ◌^◌, ◌<◌, ◌≤◌, List, ◌∷◌, ◌++◌, None, length, slice_index};
ghost use Rattle.std.specs.List.{AllByRecursion};
ghost use Rattle.pw_value.specs.Limits.{text_start, word_limit, memory_size};
ghost use Rattle.pw_image.specs.declared.image.DataItem.{DataItem};
ghost use Rattle.pw_image.specs.declared.image.Memory.{Memory};
ghost use Rattle.pw_image.specs.Image.{IsMemory};
ghost use Rattle.pw_machine.specs.declared.ends.End.{End};
ghost use Rattle.pw_machine.specs.Core.{byte_at, word_at};
ghost use Rattle.pw_machine.specs.Start.{overwritten, data_start_of, start_memory, image_start, IsOutside};
ghost use Rattle.pw_machine.specs.Run.{State, Running, Stopped, run_of, steps_of, continued};

/// A run of m + n steps is the run of m steps, continued by n: cut in two it is the same run, and once it
/// has stopped it stays as it is.
#[tactic(auto, using(crate::proofs::Runs::run_of_sum, crate::proofs::Runs::run_of_stays))]
pub fn runs_add_up()
    ensures sum { (m n : ℕ) (start : State) → run_of (m + n) start ≡ continued n (run_of m start) }
    ensures stays { (m n : ℕ) (start last : State) (end : End) →
        run_of m start ≡ Stopped end last → run_of (m + n) start ≡ Stopped end last }
{}

/// A run that goes on took each of its steps, and is in a state that has not stopped.
#[tactic(auto, using(crate::proofs::Runs::steps_of_running, crate::proofs::Runs::run_of_running))]
pub fn runs_go_on()
    ensures steps { (m : ℕ) (start mid : State) → run_of m start ≡ Running mid → steps_of m start ≡ m }
    ensures going { (m : ℕ) (start mid : State) → run_of m start ≡ Running mid → mid.core.stopped ≡ None }
{}

/// Bytes that are written over a memory change the words that they cover, and no others.
#[tactic(auto, using(crate::proofs::Loaded::word_at_inside, crate::proofs::Loaded::word_at_before, crate::proofs::Loaded::word_at_after))]
pub fn overwritten_words()
    ensures inside { (memory : List ℕ) (a : ℕ) (bytes : List ℕ) (k : ℕ) →
        a ≤ length memory → k + 4 ≤ length bytes → word_at (overwritten memory a bytes) (a + k) ≡ word_at bytes k }
    ensures before { (memory : List ℕ) (a : ℕ) (bytes : List ℕ) (k : ℕ) →
        a ≤ length memory → k + 4 ≤ a → word_at (overwritten memory a bytes) k ≡ word_at memory k }
    ensures after { (memory : List ℕ) (a : ℕ) (bytes : List ℕ) (k : ℕ) →
        a + length bytes ≤ length memory →
        word_at (overwritten memory a bytes) (a + length bytes + k) ≡ word_at memory (a + length bytes + k) }
{}

/// At the start the bytes of each item of an image's data stand at its offset from the start of the data,
/// and every other byte from there on is 0.
#[tactic(auto, using(crate::proofs::Data::item_at_start, crate::proofs::Data::other_at_start), unfolding(crate::specs::Start::start_core))]
pub fn data_bytes()
    ensures item { (m : Memory) (before after : List DataItem) (i : DataItem) (k : ℕ) →
        IsMemory m → m.items ≡ before ++ i ∷ after → k < length i.bytes →
        byte_at (image_start m).memory (data_start_of m.words + i.offset + k) ≡ slice_index i.bytes k }
    ensures other { (m : Memory) (place : ℕ) →
        IsMemory m → data_start_of m.words ≤ place → place < memory_size →
        AllByRecursion (IsOutside (data_start_of m.words) place) m.items →
        byte_at (image_start m).memory place ≡ 0 }
{}

/// At the start the words of a program stand in the memory from the start of the text on.
#[tactic(auto, using(crate::proofs::Loaded::word_at_start))]
pub fn text_words()
    ensures { (words : List ℕ) (items : List DataItem) (i : ℕ) → length words ≤ word_limit → i < length words →
        slice_index words i < 2 ^ 32 → word_at (start_memory words items) (text_start + 4 * i) ≡ slice_index words i }
{}
