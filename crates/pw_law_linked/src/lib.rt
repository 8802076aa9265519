//! Laws of linked programs that run, without code: the setting of a linked program, and what holds in it.
#![tactic(auto)]

ghost use Rattle.std.specs.Prelude.{ℕ, ◌≡◌, ◌+◌, ◌*◌, ◌<◌, ◌≤◌, ◌^◌, Bool, Some, None, List, ◌∷◌, ◌++◌, map, length, slice_index_or};
ghost use Rattle.std.specs.List.{AllByRecursion};
ghost use Rattle.pw_flow.specs.ValidFlow.{AreDistinct};
ghost use Rattle.pw_db.specs.declared.database.Directives.{Directives};
ghost use Rattle.pw_object.specs.declared.object.Object.{Object};
ghost use Rattle.pw_alloc.specs.declared.located.Located.{Located};
ghost use Rattle.pw_webflow.specs.declared.web.WebFn.{WebFn};
ghost use Rattle.pw_webflow.specs.ValidWebs.{IsWebFn};
ghost use Rattle.pw_select.specs.Selection.{selected};
ghost use Rattle.pw_delay.specs.declared.items.Item.{Item};
ghost use Rattle.pw_delay.specs.Placement.{sizes, mark_at, placed};
ghost use Rattle.pw_link.specs.Layout.{Piece, placed_from, Sites, text_of, data_begin};
ghost use Rattle.pw_link.specs.Linking.{linked, symbol_address, with_fixes, size_fault};
ghost use Rattle.pw_inst.specs.declared.relocation.Symbol.TheVariants.{Named, StackLimit, Routine};
ghost use Rattle.pw_machine.specs.Core.{word_at};
ghost use Rattle.pw_law_link.specs.Standing.{sites};
ghost use Rattle.pw_law_code.specs.LinkedAddresses.{linked_addresses};
ghost use Rattle.pw_run_languages.specs.Acts as lines;
ghost use Rattle.pw_run_languages.specs.Programs.{Program, functions_of, globals_of, AreBytes};
ghost use Rattle.pw_run_languages.specs.Addresses.{AreLawful};
ghost use Rattle.pw_run_languages.specs.LawfulPrograms.{IsProgram};
ghost use Rattle.pw_run_languages.specs.Serving.{Serves, AllServe};
ghost use Rattle.pw_run_languages.specs.Direction.{directed_functions};
ghost use Rattle.pw_run_languages.specs.LineRun.{turns, IsCalling};
ghost use Rattle.pw_run_languages.specs.CodeStands.{is_long, AreReady};
ghost use Rattle.pw_run_languages.specs.SelectionLaws.{arranged, with_items};
ghost use Rattle.pw_run_languages.specs.LinkingLaws.{AreObjectsOf, AreNamesApart, LinkKeeps, LinkKeepsRuns, address_of};
ghost use Rattle.pw_law_code.specs.Lawful.{IsLawful};
ghost use Rattle.pw_law_link_run.specs.Placing.{Stands};
ghost use Rattle.pw_law_link_run.specs.Simulating.{IsLinked};
ghost use Rattle.pw_law_link_run.specs.Leveled.{AreFramed};
ghost use Rattle.pw_law_levels.specs.Sparing.{IsSparing};
ghost use Rattle.pw_law_linked.specs.Settings.{behind_in, behind_of, mark_of, long_of, linked_setting};
ghost use Rattle.pw_law_linked.specs.Standing.{BeginsOutside, HasItsWords, AtItsAddress, IsFoundAmong, CodeAt, ItsAddressIsItsOwn, HasFrame, EndsBelow};
ghost use Rattle.pw_law_linked.specs.Given.{IsGiven};
ghost use Rattle.pw_law_linked.specs.InMemory.{HasKnownFixes, IsInMemory};
ghost use Rattle.pw_law_linked.specs.Whole.{IsInPlace};

use pw_law_code::code::{
    linked_addresses_are_lawful, placed_code_stands, programs_have_lawful_parts,
    selected_lines_are_ready,
};
use pw_law_code::machine::runs_keep_lawful_states;
use pw_law_levels::selected_functions_are_framed;
use pw_law_link::laws::{
    linked_memories_are_lawful, modules_stand_in_order, words_stand_at_their_addresses,
};
use pw_law_link_run::laws::{
    framed_runs_are_met, images_start_as_lines, lawful_starts_are_settings, library_is_there,
    ready_lines_fit, selected_calls_are_conventional,
};
use pw_machine::{data_bytes, text_words};

/// The return address of a call, told by how many turns are left behind it, is that of the word behind its slot.
pub fn calls_return_behind_their_slots()
    ensures { (long : Bool) (at : ℕ) (before rest : List Item) (item : Item) → IsCalling item → behind_in long at (before ++ item ∷ rest) (turns rest) ≡ at + 4 * sizes long before + 8 }
{}

/// Functions of different names are found by their names; so what a setting says of a function's blocks, of the returns of
/// its calls and of its branches is what its lines say, from its address in the map on.
pub fn settings_know_their_functions()
    ensures found { (ls : List Located) → AreDistinct (map (λ l. l.body.name) ls) → AllByRecursion (IsFoundAmong ls) ls }
    ensures long { (functions : List Located) (l : Located) → IsFoundAmong functions l → long_of functions l.body.name ≡ is_long (selected l) }
    ensures marks { (functions : List Located) (objects : List Object) (stack : ℕ) (l : Located) (b : ℕ) → IsFoundAmong functions l →
        mark_of functions objects stack l.body.name b ≡ address_of (linked objects stack) l.body.name + 4 * mark_at (is_long (selected l)) 0 (arranged (selected l)) b }
    ensures behind { (functions : List Located) (objects : List Object) (stack : ℕ) (l : Located) (before rest : List Item) (item : Item) → IsFoundAmong functions l → IsCalling item →
        arranged (selected l) ≡ before ++ item ∷ rest →
        behind_of functions objects stack l.body.name (turns rest) ≡ address_of (linked objects stack) l.body.name + 4 * sizes (is_long (selected l)) before + 8 }
{}

/// Of pieces that stand one behind the other none begins inside another.
pub fn pieces_stand_apart()
    ensures { (at : ℕ) (ps : List Piece) → AllByRecursion (λ q. AllByRecursion (BeginsOutside q) (placed_from at ps)) (placed_from at ps) }
{}

/// Where the words of each piece of a linked text stand at its place, those of each function of the program stand at its
/// address in the map.
pub fn functions_stand_at_their_addresses()
    ensures { (memory : List ℕ) (p : Program) (functions : List Located) (objects : List Object) → IsProgram p → AreObjectsOf p functions objects →
        AreDistinct (map (λ l. l.body.name) functions) → AllByRecursion (HasItsWords memory objects p.stack) (text_of objects) →
        AllByRecursion (AtItsAddress (HasItsWords memory objects p.stack) objects p.stack) functions }
{
    modules_stand_in_order();
}

/// There they are the words of its placed lines, their relocations done; and a name, the end of the stack and a routine have
/// the linker's addresses in the run of lines.
pub fn code_has_its_addresses()
    ensures words { (memory : List ℕ) (objects : List Object) (stack : ℕ) (l : Located) → AtItsAddress (HasItsWords memory objects stack) objects stack l →
        (i : ℕ) → i < length (placed (selected l)).words → word_at memory (address_of (linked objects stack) l.body.name + 4 * i) ≡
        slice_index_or (with_fixes (sites objects stack) (address_of (linked objects stack) l.body.name) (placed (selected l)).fixes (placed (selected l)).words) i 0 }
    ensures names { (objects : List Object) (stack own : ℕ) (behind : List ℕ → ℕ → ℕ) (name : List ℕ) →
        lines.symbol_address (linked_addresses objects stack behind) (Named name) ≡ Some (symbol_address (sites objects stack) own (Named name)) }
    ensures limit { (objects : List Object) (stack own : ℕ) (behind : List ℕ → ℕ → ℕ) →
        lines.symbol_address (linked_addresses objects stack behind) StackLimit ≡ Some (symbol_address (sites objects stack) own StackLimit) }
    ensures routines { (objects : List Object) (stack own : ℕ) (behind : List ℕ → ℕ → ℕ) (k : ℕ) →
        lines.symbol_address (linked_addresses objects stack behind) (Routine k) ≡ Some (symbol_address (sites objects stack) own (Routine k)) }
{}

/// What the relocations of a function's code are of has the linker's address in the run of lines; and each of its branches
/// leads into the text: for a call names a function of the program, or a routine.
pub fn relocations_are_known()
    ensures { (p : Program) (d : List (List ℕ × Directives)) (functions : List Located) (objects : List Object) (input : List ℕ) → IsProgram p → AllServe (directed_functions p d) functions →
        size_fault objects p.stack ≡ None → AreLawful p (linked_setting p functions objects input).addresses → AllByRecursion (HasKnownFixes p functions objects input) functions }
{}

/// A function whose words stand at its address in the machine's memory, their relocations done, stands there as items.
pub fn functions_stand_as_items()
    ensures { (p : Program) (functions : List Located) (objects : List Object) (input : List ℕ) (sites : Sites) (l : Located) → IsFoundAmong functions l → AreReady (selected l) →
        CodeAt p functions objects input sites l → Stands (linked_setting p functions objects input) (with_items l) }
{
    placed_code_stands();
}

/// The return addresses of a setting are words, where each function ends below the greatest address.
pub fn return_addresses_are_words()
    ensures { (functions : List Located) (objects : List Object) (stack : ℕ) → AllByRecursion (EndsBelow objects stack) functions → (name : List ℕ) (n : ℕ) → behind_of functions objects stack name n < 2 ^ 32 }
{}

/// Each function of a linked program has an address of its own, and none begins inside another.
pub fn addresses_are_their_own()
    ensures { (p : Program) (functions : List Located) (objects : List Object) (behind : List ℕ → ℕ → ℕ) → IsProgram p → AreObjectsOf p functions objects → AreNamesApart p →
        map (λ l. l.body.name) functions ≡ map (λ f. f.name) (functions_of p) → AreLawful p (linked_addresses objects p.stack behind) → AllByRecursion (ItsAddressIsItsOwn p objects) functions }
{
    modules_stand_in_order();
}

/// What the law of linking is given: its functions have names of their own, and its functions and objects have lawful addresses,
/// objects behind the beginning of the data, and functions addresses of their own.
pub fn given_programs_have_lawful_addresses()
    ensures distinct { (p : Program) (d : List (List ℕ × Directives)) (functions : List Located) (objects : List Object) → IsGiven p d functions objects → AreDistinct (map (λ l. l.body.name) functions) }
    ensures addresses { (p : Program) (d : List (List ℕ × Directives)) (functions : List Located) (objects : List Object) (input : List ℕ) → IsGiven p d functions objects → AreLawful p (linked_setting p functions objects input).addresses }
    ensures globals { (p : Program) (d : List (List ℕ × Directives)) (functions : List Located) (objects : List Object) → IsGiven p d functions objects → AllByRecursion (λ v. data_begin objects ≤ address_of (linked objects p.stack) v.name) (globals_of p) }
    ensures own { (p : Program) (d : List (List ℕ × Directives)) (functions : List Located) (objects : List Object) → IsGiven p d functions objects → AllByRecursion (ItsAddressIsItsOwn p objects) functions }
{
    modules_stand_in_order();
    linked_addresses_are_lawful();
}

/// The lines of its functions can be made words, and their frames and registers are such as linking asks.
pub fn given_functions_are_ready()
    ensures ready { (p : Program) (d : List (List ℕ × Directives)) (functions : List Located) (objects : List Object) → IsGiven p d functions objects → AllByRecursion (λ l. AreReady (selected l)) functions }
    ensures frames { (p : Program) (d : List (List ℕ × Directives)) (functions : List Located) (objects : List Object) → IsGiven p d functions objects → AllByRecursion HasFrame functions }
    ensures sparing { (p : Program) (d : List (List ℕ × Directives)) (functions : List Located) (objects : List Object) → IsGiven p d functions objects → AllByRecursion IsSparing functions }
{
    selected_lines_are_ready();
}

/// A program is linked as the machine's run wants it, where the machine starts lawfully with the data where the lines have
/// them, each function's code stands at its address, and no other function of the program has that address.
pub fn linked_programs_are_linked()
    ensures { (p : Program) (functions : List Located) (objects : List Object) (input : List ℕ) (sites : Sites) → IsLawful (linked_setting p functions objects input).start →
        (linked_setting p functions objects input).start.core.data_start ≡ data_begin objects → AreDistinct (map (λ l. l.body.name) functions) →
        AllByRecursion (λ l. AreReady (selected l)) functions → AllByRecursion (CodeAt p functions objects input sites) functions →
        AllByRecursion (ItsAddressIsItsOwn p objects) functions → IsLinked (linked_setting p functions objects input) }
{
    lawful_starts_are_settings();
    ready_lines_fit();
    selected_calls_are_conventional();
    settings_know_their_functions();
    functions_stand_as_items();
}

/// Functions whose places serve them have such frames and registers.
pub fn served_functions_are_sparing()
    ensures frame { (f : WebFn) (l : Located) → Serves f l → HasFrame l }
    ensures sparing { (f : WebFn) (l : Located) → IsWebFn f → Serves f l → 1 ≤ l.frame → l.frame < 2 ^ 31 → IsSparing l }
{}

/// The functions of a linked program are framed, where their registers and frames are such, and the data begin before
/// every global object.
pub fn linked_programs_are_framed()
    ensures { (p : Program) (functions : List Located) (objects : List Object) (input : List ℕ) → AreDistinct (map (λ l. l.body.name) functions) →
        AllByRecursion IsSparing functions → AllByRecursion HasFrame functions → AllByRecursion (ItsAddressIsItsOwn p objects) functions →
        AllByRecursion (λ v. data_begin objects ≤ address_of (linked objects p.stack) v.name) (globals_of p) → AreFramed (linked_setting p functions objects input) }
{
    settings_know_their_functions();
    selected_functions_are_framed();
}

/// What the law of linking is given is in memory as it should be: its image is lawful, its data are of bytes and are those that
/// the lines start with, and what its relocations are of is known.
pub fn given_programs_are_in_memory()
    ensures { (p : Program) (d : List (List ℕ × Directives)) (functions : List Located) (objects : List Object) (input : List ℕ) → IsGiven p d functions objects → AreBytes input → IsInMemory p functions objects input }
{
    modules_stand_in_order();
    linked_addresses_are_lawful();
    programs_have_lawful_parts();
    linked_memories_are_lawful();
    data_bytes();
    runs_keep_lawful_states();
}

/// What the law of linking is given is in its place, where the image is lawful, what its relocations are of is known,
/// and its data are those of the lines. For its words stand in memory at their addresses, and the library and the
/// routines are the last pieces, and stand behind all functions.
pub fn given_programs_are_in_place()
    ensures { (p : Program) (d : List (List ℕ × Directives)) (functions : List Located) (objects : List Object) (input : List ℕ) → IsGiven p d functions objects → IsInMemory p functions objects input → IsInPlace p functions objects input }
{
    modules_stand_in_order();
    linked_addresses_are_lawful();
    selected_lines_are_ready();
    text_words();
    words_stand_at_their_addresses();
    runs_keep_lawful_states();
}

/// Where all is in its place, the image runs as the lines do, at the addresses of its map, and notes the same.
pub fn linked_programs_run()
    ensures { (p : Program) (functions : List Located) (objects : List Object) (input : List ℕ) → IsInPlace p functions objects input → LinkKeeps p functions (linked objects p.stack) input }
{
    linked_programs_are_linked();
    linked_programs_are_framed();
    library_is_there();
    images_start_as_lines();
    framed_runs_are_met();
}

/// The law of linking: of the objects of a lawful program, with directives and with places that serve, the linked image runs as
/// the lines do, at the addresses of its map, and notes the same, for some words that the routines leave in scratch registers.
pub fn linking_keeps_runs()
    ensures { LinkKeepsRuns }
{
    given_programs_are_in_memory();
    given_programs_are_in_place();
    linked_programs_run();
}
