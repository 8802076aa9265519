//! Laws of the static semantics, without code: a local that is named is in scope, and what initialises one by its value is a scalar, a structure or a union.
#![tactic(auto)]

ghost use Rattle.std.specs.Prelude.{◌<◌, All, Ok};
ghost use Rattle.pw_tree.specs.Trees.{Module};
ghost use Rattle.pw_types.specs.TypedTrees.{ModuleValue};
ghost use Rattle.pw_check_rules.specs.Checks.{Checks};
ghost use Rattle.pw_law_checked.specs.Words.{WordsInStatement};
ghost use Rattle.pw_law_scopes.specs.Scoped.{IsScopedStatement};

/// In each function of a module that checking accepts a local that is named is a parameter or one of a block around (ISO C90 6.1.2.1),
/// and what initialises a local by its value is a scalar, a structure or a union (6.5.7), if each number in the body is one of 32 bits,
/// as in each tree that the code makes.
pub fn accepted_locals_are_in_scope()
    ensures { (tree : Module) (m : ModuleValue) → Checks tree (Ok m)
        → All (λ f. WordsInStatement f.body → IsScopedStatement (λ k. k < f.params) f.body) m.functions }
{}
