//! Laws of the static semantics, without code: what names in typed trees denote.

ghost use Rattle.std.specs.Prelude.{All, Ok, false};
ghost use Rattle.pw_tree.specs.Trees.{Module};
ghost use Rattle.pw_tree.specs.WellFormed.{WellFormedModule};
ghost use Rattle.pw_tree.specs.Words.{WordsSpellModule};
ghost use Rattle.pw_types.specs.TypedModules.{IsStatement};
ghost use Rattle.pw_types.specs.TypedTrees.{ModuleValue};
ghost use Rattle.pw_check_rules.specs.Checks.{Checks};
ghost use Rattle.pw_law_checked.specs.Words.{WordsInStatement};
ghost use Rattle.pw_law_checked.specs.Designators.{StatementNamesObjects};
ghost use Rattle.pw_law_checked.specs.OwnNames.{with_objects};

/// In each function of a module that checking accepts no node that names an object which all modules share has a function's type:
/// the name of a function makes a node of its own (ISO C90 6.2.2.1).
pub fn accepted_names_of_objects_are_no_functions()
    ensures { (tree : Module) (m : ModuleValue) → Checks tree (Ok m) → All (λ f. StatementNamesObjects f.body) m.functions }
{}

/// The body of each function of a module that checking accepts is a well-typed statement also in the module where each
/// object of its own counts as a function of type int: so what it calls or designates as a function under a name of the
/// module's own is no object (6.1.2.2). The premises are those of `accepted_bodies_are_well_typed` of pw_law_checked,
/// and that the words of the syntax tree spell what they are, as in the tree of each text.
pub fn accepted_functions_are_no_objects()
    ensures { (tree : Module) (m : ModuleValue) → WellFormedModule tree → WordsSpellModule tree → Checks tree (Ok m)
        → All (λ f. WordsInStatement f.body → IsStatement (with_objects m) f false false f.params f.body) m.functions }
{}
