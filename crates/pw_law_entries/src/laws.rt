//! The law. A function here does nothing: its clause is a fact about all values.

ghost use Rattle.std.specs.Prelude.{◌≡◌, None, ℕ, List};
ghost use Rattle.pw_alloc.specs.declared.located.Located.{Located};
ghost use Rattle.pw_db.specs.declared.database.Directives.{Directives};
ghost use Rattle.pw_object.specs.declared.object.Object.{Object};
ghost use Rattle.pw_link.specs.Linking.{linked, size_fault};
ghost use Rattle.pw_run_languages.specs.Programs.{Program};
ghost use Rattle.pw_run_languages.specs.LawfulPrograms.{IsProgram};
ghost use Rattle.pw_run_languages.specs.Direction.{directed_functions};
ghost use Rattle.pw_run_languages.specs.Serving.{AllServe};
ghost use Rattle.pw_run_languages.specs.LinkingLaws.{AreObjectsOf, AreNamesApart, map_of};
ghost use Rattle.pw_where.specs.Looks.{entries_in};
ghost use Rattle.pw_law_where.specs.Counting.{AreEntriesOf};

use pw_law_code::code::{linked_addresses_are_lawful, maps_name_the_program};

/// Where a program is linked from the objects of its modules, the addresses at which the debugger counts calls are exactly those
/// of the functions that the modules define, but `$start`, as the machine's trace sees them.
pub fn linked_programs_have_their_entries()
    ensures { (p : Program) (d : List (List ℕ × Directives)) (functions : List Located) (objects : List Object) → IsProgram p → AreNamesApart p → AllServe (directed_functions p d) functions → AreObjectsOf p functions objects → size_fault objects p.stack ≡ None → AreEntriesOf (entries_in (linked objects p.stack) objects) (map_of p functions (linked objects p.stack)) }
{
    linked_addresses_are_lawful();
    maps_name_the_program();
}
