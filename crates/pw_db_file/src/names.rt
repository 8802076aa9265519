//! The names that a database uses.

ghost use Rattle.std.specs.Prelude.{◌≡◌, ◌++◌, map, IfOk, OnOk};
ghost use Rattle.pw_db_file.specs.Spelling.{names_of, names_of_function};

use pw_db::{Directives, Role, Web};
use pw_value::Name;
use std::alloc::{AllocError, Global};

/// Adds the globals of webs.
fn add_webs<'a>(used: &mut Vec<&'a Name>, webs: &'a [(Web, Role)]) -> Result<(), AllocError>
    ensures { OnOk result (map (λ name. name.now) used.new.items ≡ map (λ name. name.now) used.old.items ++ map (λ w. w.global) (map (λ w. w.0) webs.now)) }
{
    for web in webs {
        used.push(&web.0.global)?;
    }
    Ok(())
}

/// Adds the names that a function uses.
fn add_function<'a>(
    used: &mut Vec<&'a Name>,
    function: &'a (Name, Directives),
) -> Result<(), AllocError>
    ensures { OnOk result (map (λ name. name.now) used.new.items ≡ map (λ name. name.now) used.old.items ++ names_of_function function.now) }
{
    used.push(&function.0)?;
    add_webs(used, function.1.webs.as_slice())
}

/// The names that functions use, in the order of their use.
pub(crate) fn used_names<'a>(
    alloc: Global,
    functions: &[&'a (Name, Directives)],
) -> Result<Vec<&'a Name>, AllocError>
    ensures { IfOk result (λ v. map (λ name. name.now) v.items ≡ names_of (map (λ f. f.now) functions.now)) }
{
    let mut used = Vec::new(alloc);
    for function in functions {
        add_function(&mut used, function)?;
    }
    Ok(used)
}
