//! Laws of lowering's refinement, without code: locals that come into scope and end.
#![tactic(auto)]

ghost use Rattle.std.specs.Prelude.{ℕ};
ghost use Rattle.pw_law_refine.specs.StatementParts.{LocalsKeep};
ghost use Rattle.pw_law_refine_locals.specs.Scopes.{LocalsLeave};

use pw_law_refine_code::slots_stand;
use pw_law_refine_steps::stretches_last;

/// What is done where locals of its own are in scope keeps the states related behind their end: of the statements of a block,
/// and of the body of a function, whose parameters are such locals.
pub fn locals_keep()
    ensures blocks { (bound : ℕ) → LocalsKeep bound }
    ensures functions { (bound : ℕ) → LocalsLeave bound }
{
    slots_stand();
    stretches_last();
}
