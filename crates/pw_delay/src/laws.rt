//! What stays of items where words move into slots, and where the branches of placed code lead.

ghost use Rattle.std.specs.Prelude.{ℕ, Bool, Option, List, ◌≡◌, ◌≤◌, ◌∷◌, ◌++◌};
ghost use Rattle.std.specs.List.{flat_map, AllByRecursion};
ghost use Rattle.pw_inst.specs.declared.line.Line.{Line};
ghost use Rattle.pw_delay.specs.declared.items.Word.{Word};
ghost use Rattle.pw_delay.specs.declared.items.Turn.TheVariants.{If};
ghost use Rattle.pw_delay.specs.declared.items.Item.{Item};
ghost use Rattle.pw_delay.specs.declared.items.Item.TheVariants.{Turns, Mark};
ghost use Rattle.pw_delay.specs.Placement.{sizes};
ghost use Rattle.pw_delay.specs.Lawful.{AreItems};
ghost use Rattle.pw_delay.specs.Filling.{filled};
ghost use Rattle.pw_delay.specs.Parts.{words_of, blocks_of, turns_of, compared_by, IsFilledFrom, PartsAlone};
ghost use Rattle.pw_delay.specs.Branches.{HasNoCall, AreSent, Reaches};

/// Each word stays once, in the order of the others; so do the places where blocks begin and the turns of control, but for
/// how far a branch goes back. Words do not become more, and what could be placed still can.
pub fn filling_keeps_parts()
    ensures words { (behind : Bool) (items : List Item) → flat_map words_of (filled behind items) ≡ flat_map words_of items }
    ensures blocks { (behind : Bool) (items : List Item) → flat_map blocks_of (filled behind items) ≡ flat_map blocks_of items }
    ensures turns { (behind : Bool) (items : List Item) → flat_map turns_of (filled behind items) ≡ flat_map turns_of items }
    ensures sizes { (long behind : Bool) (items : List Item) → sizes long (filled behind items) ≤ sizes long items }
    ensures lawful { (behind : Bool) (items : List Item) → AreItems items → AreItems (filled behind items) }
{}

/// Each item is one that was there, or a turn with the word in its slot that stood before it and may move there.
pub fn slots_are_filled_from_items()
    ensures { (behind : Bool) (items : List Item) → AllByRecursion (IsFilledFrom items) (filled behind items) }
{}

/// Where what is behind does not begin with a turn whose slot is empty, it is filled by itself: so no word moves over the
/// beginning of a block, and none but the word directly before a turn moves.
pub fn parts_are_filled_alone()
    ensures parts { PartsAlone }
    ensures blocks { (behind : Bool) (before after : List Item) (b : ℕ) →
        filled behind (before ++ Mark b ∷ after) ≡ filled behind before ++ Mark b ∷ filled (compared_by behind before) after }
{}

/// Each call and each jump has a relocation, where the lines hold none by themselves.
pub fn calls_and_jumps_are_relocated()
    ensures { (lines : List Line) → AllByRecursion HasNoCall lines → AreSent lines }
{}

/// A short conditional branch leads to the first word of its block.
pub fn branches_are_resolved()
    ensures { (before after : List Item) (r b : ℕ) (slot : Option Word) → Reaches (before ++ Turns (If r b) slot ∷ after) before r b }
{}
