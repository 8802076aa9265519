//! Laws of selection, without code: what each line is that selection makes.
#![tactic(auto)]

ghost use Rattle.std.specs.Prelude.{ℕ, List, Contains};
ghost use Rattle.std.specs.List.{AllByRecursion};
ghost use Rattle.pw_alloc.specs.declared.located.Located.{Located};
ghost use Rattle.pw_select.specs.Selection.{selected};
ghost use Rattle.pw_law_select_walk.specs.Rows.{IsSelected, Knows};

/// Each line of a selected function is a label or a row of selection. The names whose addresses it takes are those of the
/// function's operations and of the globals that its directives name; the names that it calls are those of its calls.
pub fn each_selected_line()
    ensures { (names callees : List (List ℕ)) (f : Located) → Knows (Contains names) (Contains callees) f → AllByRecursion (IsSelected (Contains names) (Contains callees)) (selected f) }
{}
