//! Laws of the static semantics, without code: the typed tree of an accepted module is well typed.

ghost use Rattle.std.specs.Prelude.{◌≢◌, false, All, AllPairs, List, Ok};
ghost use Rattle.pw_tree.specs.Trees.{Expr, Module};
ghost use Rattle.pw_tree.specs.WellFormed.{WellFormedModule};
ghost use Rattle.pw_types.specs.Records.{IsLaid, IsObjectType};
ghost use Rattle.pw_types.specs.TypeTrees.{type_of};
ghost use Rattle.pw_types.specs.TypedModules.{AreLabels, IsBlock, IsDeclaredIfExternal, IsFunctionTyped, IsGlobal, IsStatement, WellTyped};
ghost use Rattle.pw_types.specs.TypedTrees.{LocalValue, ModuleValue};
ghost use Rattle.pw_types.specs.WellTyped.{IsKnownType, IsTyped};
ghost use Rattle.pw_check_walk.specs.Answers.{Answers};
ghost use Rattle.pw_check_rules.specs.Checks.{Checks};
ghost use Rattle.pw_check_rules.specs.Operands.{Operand};
ghost use Rattle.pw_check_rules.specs.Phrases.{expr_rule};
ghost use Rattle.pw_check_rules.specs.States.{State, start};
ghost use Rattle.pw_law_checked.specs.Lawful.{AreWords, Denotes, IsLawful};
ghost use Rattle.pw_law_checked.specs.Leading.{IsDeclaredWhole, ItemsLead};
ghost use Rattle.pw_law_checked.specs.Words.{AreShortStrings, AreWordsInModule, WordsInStatement};

/// Nothing is declared at a module's start, so nothing that is known there is unlawful.
pub fn start_is_lawful()
    ensures { IsLawful start }
{}

/// An expression that checking accepts leaves the state lawful, and its typed tree is well typed in every module and among all
/// locals that the names of the state stand for, if each number in it is one of 32 bits, as it is in each tree that the code makes.
pub fn expressions_are_well_typed()
    ensures lawful { (e : Expr) (s t : State) (a : Operand) → IsLawful s → Answers (expr_rule e s) (Ok (a, t)) → IsLawful t }
    ensures typed { (e : Expr) (s t : State) (a : Operand) → IsLawful s → Answers (expr_rule e s) (Ok (a, t))
        → (m : ModuleValue) (locals : List LocalValue) → Denotes t m locals → AreWords a.node → IsTyped m locals a.node }
{}

/// In a module that checking accepts each structure or union that is defined follows from its members, whose types were
/// complete before it, and the types of what the module shares name only records that it has.
pub fn accepted_records_are_laid()
    ensures laid { (tree : Module) (m : ModuleValue) → Checks tree (Ok m) → IsLaid m.records }
    ensures known { (tree : Module) (m : ModuleValue) → Checks tree (Ok m) → All (λ d. IsKnownType m.records (type_of d.ty)) m.declared }
{}

/// A module that checking accepts shares no name twice, and defines no function twice.
pub fn accepted_names_are_apart()
    ensures one_declared { (tree : Module) (m : ModuleValue) → Checks tree (Ok m) → AllPairs (λ d e. d.name ≢ e.name) m.declared }
    ensures one_function { (tree : Module) (m : ModuleValue) → Checks tree (Ok m) → AllPairs (λ f g. f.name ≢ g.name) m.functions }
{}

/// In each function of a module that checking accepts no label stands twice, each is that of a case or a default or one that a
/// `goto` can name, and each that a `goto` can name stands there (ISO C90 6.6.1).
pub fn accepted_labels_are_apart()
    ensures { (tree : Module) (m : ModuleValue) → Checks tree (Ok m) → All AreLabels m.functions }
{}

/// Each function of a module that checking accepts has a function's type, with a result that is void or a scalar, its
/// parameters are its first locals, each a scalar of its type, and its body is a block behind them (ISO C90 6.7.1).
pub fn accepted_functions_are_typed()
    ensures typed { (tree : Module) (m : ModuleValue) → Checks tree (Ok m) → All (IsFunctionTyped m) m.functions }
    ensures block { (tree : Module) (m : ModuleValue) → Checks tree (Ok m) → All (λ f. IsBlock f.params f.body) m.functions }
{}

/// In a module that checking accepts no object is defined twice, and none under the name of a function.
pub fn accepted_objects_are_apart()
    ensures one_global { (tree : Module) (m : ModuleValue) → Checks tree (Ok m) → AllPairs (λ g h. g.name ≢ h.name) m.globals }
    ensures one_kind { (tree : Module) (m : ModuleValue) → Checks tree (Ok m) → All (λ g. All (λ f. g.name ≢ f.name) m.functions) m.globals }
{}

/// What a module that checking accepts defines under an external name it declares, with the type that it has (ISO C90 6.1.2.6).
pub fn accepted_names_are_declared()
    ensures functions { (tree : Module) (m : ModuleValue) → Checks tree (Ok m) → All (λ f. IsDeclaredIfExternal m f.name f.ty) m.functions }
    ensures objects { (tree : Module) (m : ModuleValue) → Checks tree (Ok m) → All (λ g. IsDeclaredIfExternal m g.name g.ty) m.globals }
{}

/// The body of each function of a module that checking accepts is a well-typed statement of the function, in no loop and no switch,
/// if each number in it is one of 32 bits, as in each tree that the code makes, and the syntax tree is one of C90's grammar
/// (ISO C90 6.5.7, 6.6).
pub fn accepted_bodies_are_well_typed()
    ensures { (tree : Module) (m : ModuleValue) → WellFormedModule tree → Checks tree (Ok m)
        → All (λ f. WordsInStatement f.body → IsStatement m f false false f.params f.body) m.functions }
{}

/// Each parameter and local of a function that checking accepts has a known type, which is complete and keeps the limit on sizes.
pub fn accepted_locals_are_objects()
    ensures { (tree : Module) (m : ModuleValue) → Checks tree (Ok m)
        → All (λ f. All (λ l. IsObjectType m.records (type_of l.ty) × IsKnownType m.records (type_of l.ty)) f.locals) m.functions }
{}

/// Each object of a module that checking accepts has a known type, which is complete and keeps the limit on sizes, and the items of
/// its first bytes stand in it one behind the other: bytes, or addresses of what is known (ISO C90 6.5.7, 6.7.2). Two premises: each
/// number of the module is one of 32 bits, as in each module that the code makes, and no string literal is longer than an object
/// can be.
pub fn accepted_objects_are_well_typed()
    ensures { (tree : Module) (m : ModuleValue) → Checks tree (Ok m) → AreWordsInModule m → AreShortStrings m → All (IsGlobal m) m.globals }
{}

/// Each object of a module that checking accepts has a type that is complete and keeps the limit on sizes (ISO C90 6.5, 6.7.2), if no
/// string literal is longer than an object can be.
pub fn accepted_objects_have_sizes()
    ensures { (tree : Module) (m : ModuleValue) → Checks tree (Ok m) → AreShortStrings m → All (λ g. IsObjectType m.records (type_of g.ty)) m.globals }
{}

/// Each address in the first bytes of an object of a module that checking accepts leads into what it names, or directly behind it, as
/// far as the module knows its size; to that of a function nothing is added (ISO C90 6.4). And an object that all modules share has the
/// size of the type with which its own module declares it.
pub fn accepted_addresses_lead_inside()
    ensures lead { (tree : Module) (m : ModuleValue) → Checks tree (Ok m) → All (ItemsLead m) m.globals }
    ensures whole { (tree : Module) (m : ModuleValue) → Checks tree (Ok m) → All (IsDeclaredWhole m) m.globals }
{}

/// A module that checking accepts is well typed (`WellTyped`): its types, its objects with their items, its functions with their
/// statements, and the names that it shares. Three premises: the syntax tree is one of C90's grammar, each number of the module is
/// one of 32 bits, as in each module that the code makes, and no string literal is longer than an object can be.
pub fn accepted_is_well_typed()
    ensures { (tree : Module) (m : ModuleValue) → WellFormedModule tree → Checks tree (Ok m) → AreWordsInModule m → AreShortStrings m → WellTyped m }
{}
