//! Laws of accepted programs, without code: what checking and linking accept is accepted in the words of C's meaning.

ghost use Rattle.std.specs.Prelude.{ℕ, ◌≡◌, ◌≤◌, List, Some, map, Contains};
ghost use Rattle.pw_value.specs.Limits.{stack_limit};
ghost use Rattle.pw_value.specs.Shapes.{Agree};
ghost use Rattle.pw_files.specs.Rising.{IsRising};
ghost use Rattle.pw_types.specs.FullNames.{full_name};
ghost use Rattle.pw_types.specs.Shapes.{shape_of};
ghost use Rattle.pw_types.specs.TypeTrees.{QType, type_of, is_volatile};
ghost use Rattle.pw_types.specs.TypedTrees.{Symbol};
ghost use Rattle.pw_types.specs.WellTyped.{IsFunctionOf};
ghost use Rattle.pw_flow.specs.declared.flow.FlowFn.{FlowFn};
ghost use Rattle.pw_flow.specs.declared.flow.Op.{Op};
ghost use Rattle.pw_run_languages.specs.Programs.{functions_of};
ghost use Rattle.pw_cmean.specs.Worlds.{Callable, Program, ProgramModule, function_named};
ghost use Rattle.pw_cmean.specs.Typed.{IsWellTyped};
ghost use Rattle.pw_law_lower.specs.Within.{IsWithin};
ghost use Rattle.pw_run_languages.specs.LawfulPrograms.{IsProgram, NamesRightly, ops_of};
ghost use Rattle.pw_run_languages.specs.LinkingLaws.{AreNamesApart};
ghost use Rattle.pw_law_source.specs.Accepting.{AreFormed, CheckedIsAccepted, LeadInside};
ghost use Rattle.pw_law_source.specs.Lowering.{AreChecked, DeclareAlike, HaveParts, LoweringKeepsRuns, SourceIsNeverWrong, flow_program};
ghost use Rattle.pw_law_refine.specs.Whole.{CheckedIsLowerable, ProgramsKeepRuns};
ghost use Rattle.pw_law_accept.specs.Linked.{AreLinked, AreNamedPlainly, HaveRightItems};

use crate::formed::accepted_functions_are_formed;
use crate::operations::lowered_functions_refer_rightly;
use pw_law_checked::{
    accepted_addresses_lead_inside, accepted_bodies_have_words, accepted_bodies_keep_limits,
    accepted_functions_are_no_objects, accepted_functions_are_typed,
    accepted_functions_keep_limits, accepted_initialisers_have_parts, accepted_is_within,
    accepted_locals_are_copied, accepted_names_are_declared, accepted_names_are_identifiers,
    accepted_names_of_objects_are_no_functions, accepted_records_are_within, strings_of_texts,
};
use pw_law_lower::modules_are_lawful;
use pw_law_refine::layers_rest_on_programs;
use pw_law_valid::accepted_objects_are_numbered;
use pw_law_words::accepted_texts_are_well_typed;
use pw_tree::words_spell_what_they_are;

/// Where the objects of checked modules link, all declarations of a name agree, the library's among them, and `main` takes nothing
/// and gives an int (ISO C90 6.1.2.6, 5.1.2.2.1).
pub fn linked_modules_declare_alike()
    ensures { (p : Program) (frame_of : List ℕ → ℕ) (stack : ℕ) → AreChecked p → AreLinked (flow_program p frame_of stack).modules → DeclareAlike (flow_program p frame_of stack) }
{
    words_spell_what_they_are();
    accepted_names_are_identifiers();
    accepted_functions_are_typed();
    accepted_names_are_declared();
}

/// Where the objects of checked modules link, no function and no object has the name of another one or of a routine
/// (6.7).
pub fn linked_names_are_apart()
    ensures { (p : Program) (frame_of : List ℕ → ℕ) (stack : ℕ) → AreChecked p → AreLinked (flow_program p frame_of stack).modules → AreNamesApart (flow_program p frame_of stack) }
{
    words_spell_what_they_are();
    accepted_names_are_identifiers();
    accepted_functions_are_typed();
    accepted_names_are_declared();
}

/// Where the objects of checked modules link, no module has a colon in its name and the names rise, the function of a
/// name has a shape that agrees with what each module says of it (6.1.2.6).
pub fn linked_functions_agree()
    ensures { (p : Program) (frame_of : List ℕ → ℕ) (stack : ℕ) → AreChecked p → AreNamedPlainly p → IsRising (map (λ m. m.name) p.modules) → AreLinked (flow_program p frame_of stack).modules
        → (m : ProgramModule) → Contains p.modules m → (symbol : Symbol) (ty : QType) (f : Callable) → IsFunctionOf m.tree symbol ty → function_named p (full_name m.name symbol) ≡ Some f
        → Agree (shape_of m.tree.records (type_of ty) (is_volatile ty)) f.shape }
{
    words_spell_what_they_are();
    accepted_names_are_identifiers();
    accepted_functions_are_typed();
    accepted_names_are_declared();
}

/// In checked modules no local that is initialised by the bytes of a hidden object is without an expression of which they are made.
pub fn checked_initialisers_have_parts()
    ensures { (p : Program) → AreChecked p → HaveParts p }
{
    accepted_initialisers_have_parts();
}

/// In checked modules the labels that a `goto` can name stand in the order of the text, and a hidden object gives its bytes to no
/// scalar local.
pub fn checked_functions_are_formed()
    ensures { (p : Program) → AreChecked p → AreFormed p }
{
    accepted_functions_are_formed();
}

/// Checked modules whose objects link are within the limits for which their flow graphs are lawful.
pub fn linked_modules_are_within()
    ensures { (p : Program) (frame_of : List ℕ → ℕ) (stack : ℕ) → AreChecked p → AreLinked (flow_program p frame_of stack).modules → (m : ProgramModule) → Contains p.modules m → IsWithin m.tree }
{
    strings_of_texts();
    words_spell_what_they_are();
    accepted_objects_are_numbered();
    accepted_is_within();
}

/// Checked modules whose objects link are well typed and agree on functions, if no module has a colon in its name and
/// the names rise.
pub fn linked_modules_are_well_typed()
    ensures { (p : Program) (frame_of : List ℕ → ℕ) (stack : ℕ) → AreChecked p → AreNamedPlainly p → IsRising (map (λ m. m.name) p.modules) → AreLinked (flow_program p frame_of stack).modules → IsWellTyped p }
{
    strings_of_texts();
    accepted_texts_are_well_typed();
    linked_functions_agree();
}

/// The operations of checked modules whose objects link name functions and globals as they want one: what one module
/// takes for a function or an object, the program has as such.
pub fn linked_operations_refer_rightly()
    ensures { (p : Program) (frame_of : List ℕ → ℕ) (stack : ℕ) → AreChecked p → AreNamedPlainly p → IsRising (map (λ m. m.name) p.modules) → AreLinked (flow_program p frame_of stack).modules
        → (f : FlowFn) (o : Op) → Contains (functions_of (flow_program p frame_of stack)) f → Contains (ops_of f) o → NamesRightly (flow_program p frame_of stack) o }
{
    strings_of_texts();
    words_spell_what_they_are();
    accepted_names_are_identifiers();
    accepted_functions_are_typed();
    accepted_names_are_declared();
    accepted_texts_are_well_typed();
    accepted_bodies_have_words();
    linked_modules_are_within();
    modules_are_lawful();
    accepted_names_of_objects_are_no_functions();
    accepted_functions_are_no_objects();
    lowered_functions_refer_rightly();
}

/// The first bytes of the objects of checked modules whose objects link are right: bytes, and addresses, to which
/// nothing is added where they are those of functions.
pub fn linked_items_are_right()
    ensures { (p : Program) (frame_of : List ℕ → ℕ) (stack : ℕ) → AreChecked p → AreNamedPlainly p → IsRising (map (λ m. m.name) p.modules) → AreLinked (flow_program p frame_of stack).modules
        → HaveRightItems (flow_program p frame_of stack) }
{
    strings_of_texts();
    words_spell_what_they_are();
    accepted_names_are_identifiers();
    accepted_functions_are_typed();
    accepted_names_are_declared();
    accepted_texts_are_well_typed();
    accepted_addresses_lead_inside();
    linked_modules_are_within();
    modules_are_lawful();
}

/// The flow graphs of checked modules whose objects link make a program: each name that they use is defined, as what it
/// is used for, and none twice, the modules are lawful and stand in the order of their names, and there is a `$start`.
pub fn linked_modules_make_a_program()
    ensures { (p : Program) (frame_of : List ℕ → ℕ) (stack : ℕ) → AreChecked p → AreNamedPlainly p → IsRising (map (λ m. m.name) p.modules) → stack ≤ stack_limit → AreLinked (flow_program p frame_of stack).modules
        → IsProgram (flow_program p frame_of stack) }
{
    strings_of_texts();
    words_spell_what_they_are();
    accepted_names_are_identifiers();
    accepted_functions_are_typed();
    accepted_names_are_declared();
    accepted_texts_are_well_typed();
    linked_modules_are_within();
    modules_are_lawful();
    linked_operations_refer_rightly();
    linked_items_are_right();
}

/// Where the objects of checked modules link, each address in the first bytes of an object leads into the object that
/// it names, or directly behind it.
pub fn linked_addresses_lead_inside()
    ensures { (p : Program) (frame_of : List ℕ → ℕ) (stack : ℕ) → AreChecked p → AreLinked (flow_program p frame_of stack).modules → LeadInside (flow_program p frame_of stack) }
{
    strings_of_texts();
    words_spell_what_they_are();
    accepted_names_are_identifiers();
    accepted_functions_are_typed();
    accepted_names_are_declared();
    accepted_texts_are_well_typed();
    accepted_addresses_lead_inside();
    linked_modules_declare_alike();
}

/// What checking and linking accept is accepted in the words of C's meaning, with all that built programs want of it: checked modules
/// in the order of their names, of which none has a colon, whose objects link, with a stack that may be asked for.
pub fn checked_is_accepted()
    ensures { CheckedIsAccepted }
{
    linked_modules_are_well_typed();
    linked_modules_make_a_program();
    linked_modules_declare_alike();
    checked_initialisers_have_parts();
    checked_functions_are_formed();
    linked_names_are_apart();
    linked_addresses_lead_inside();
}

/// Accepted programs of checked texts are lowerable: their functions are formed, addresses in initialisers lead inside, and records
/// and functions keep their limits. Nothing is asked of linking, nor of the numbers of trees.
pub fn accepted_is_lowerable()
    ensures { CheckedIsLowerable }
{
    strings_of_texts();
    words_spell_what_they_are();
    accepted_names_are_identifiers();
    accepted_functions_are_typed();
    accepted_names_are_declared();
    accepted_addresses_lead_inside();
    accepted_records_are_within();
    accepted_locals_are_copied();
    accepted_functions_keep_limits();
    accepted_bodies_keep_limits();
    accepted_initialisers_have_parts();
    checked_functions_are_formed();
}

/// The law of lowering rests on that of programs, and on that of the source.
pub fn lowering_rests_on_programs()
    ensures { ProgramsKeepRuns → SourceIsNeverWrong → LoweringKeepsRuns }
{
    accepted_is_lowerable();
    layers_rest_on_programs();
}
