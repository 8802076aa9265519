//! Laws of the static semantics, without code: what checking makes of functions beyond what is well typed.

ghost use Rattle.std.specs.Prelude.{All, Ok};
ghost use Rattle.pw_tree.specs.Trees.{Module};
ghost use Rattle.pw_types.specs.TypedTrees.{ModuleValue};
ghost use Rattle.pw_check_rules.specs.Checks.{Checks};
ghost use Rattle.pw_law_source.specs.Accepting.{IsFormed};

/// In each function of a module that checking accepts the labels that a `goto` can name are those of the body that are no case's,
/// in the order of the text (ISO C90 6.6.1), and a hidden object gives its bytes to no scalar local (6.5.7).
pub fn accepted_functions_are_formed()
    ensures { (tree : Module) (m : ModuleValue) → Checks tree (Ok m) → All IsFormed m.functions }
{}
