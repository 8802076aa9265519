//! The payload of a module's functions.

ghost use Rattle.std.specs.Prelude.{◌≡◌, List, ℕ, map, filter, IfOk};
ghost use Rattle.pw_db.specs.declared.database.Directives.{Directives as AnyDirectives};
ghost use Rattle.pw_db.specs.Database.{CanBeStored, IsStored, says_something};
ghost use Rattle.pw_db_file.specs.Spelling.{IsPayload};

use crate::writing::write_payload;
use pw_db::Directives;
use pw_value::Name;
use std::alloc::{AllocError, Global};

/// The functions whose directives say something.
fn speaking(
    alloc: Global,
    functions: &[(Name, Directives)],
) -> Result<Vec<&(Name, Directives)>, AllocError>
    ensures { IfOk result (λ v. map (λ f. f.now) v.items ≡ filter says_something functions.now) }
{
    let mut stored = Vec::new(alloc);
    for function in functions {
        if function.1.say_something() {
            stored.push(function)?;
        }
    }
    Ok(stored)
}

/// The payload of the functions whose directives say something, in byte order of their names.
pub fn payload(alloc: Global, functions: &[(Name, Directives)]) -> Result<Vec<u8>, AllocError>
    requires { CanBeStored functions.now }
    ensures { IfOk result (λ v. (stored : List (List ℕ × AnyDirectives)) × IsStored functions.now stored × IsPayload v.items stored) }
{
    let mut stored = speaking(alloc, functions)?;
    stored.sort_unstable_by(|one, other| one.0.cmp(&other.0));
    write_payload(alloc, &stored)
}
