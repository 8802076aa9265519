//! The directives of a module's functions.

ghost use Rattle.std.specs.Prelude.{◌≡◌, map, IfOk, All};
ghost use Rattle.pw_flow.specs.ValidFlow.{IsValid};
ghost use Rattle.pw_db.specs.Database.{IsDatabase, HasDirectives};
ghost use Rattle.pw_phase_two.specs.Phases.{AreDirectivesOf};

use pw_db::{Database, Directives, of_module};
use pw_flow::{FlowFn, FlowModule};
use pw_value::Name;
use std::alloc::{AllocError, Global};

/// The names of functions.
fn names_of(alloc: Global, functions: &[FlowFn]) -> Result<Vec<Name>, AllocError>
    ensures { IfOk result (λ v. v.items ≡ map (λ f. f.name) functions.now) }
{
    let mut names = Vec::new(alloc);
    for function in functions {
        names.push(function.name.copy(alloc)?)?;
    }
    Ok(names)
}

/// The functions of a lawful module, in its order, each with its directives in a database; they are empty where
/// the database lacks it.
pub fn directives_for(
    alloc: Global,
    flow: &FlowModule,
    db: &Database,
) -> Result<Vec<(Name, Directives)>, AllocError>
    requires lawful { IsValid flow.now }
    requires database { IsDatabase db.now.functions }
    ensures of_module { IfOk result (λ v. AreDirectivesOf flow.now v.items) }
    ensures directives { IfOk result (λ v. All (HasDirectives db.now.functions) v.items) }
{
    let names = names_of(alloc, flow.functions.as_slice())?;
    let directives = of_module(alloc, db, &names)?;
    Ok(directives)
}
