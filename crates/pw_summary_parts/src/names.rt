//! The names that the parts of a summary use.

ghost use Rattle.std.specs.Prelude.{◌≡◌, ◌++◌, map, OnOk};
ghost use Rattle.std.specs.List.{flat_map};
ghost use Rattle.pw_summary_parts.specs.Spelling.{names_of_uses};

use pw_files::used::add_names;
use pw_summary::Uses;
use pw_value::{Kind, Name, Shape};
use std::alloc::AllocError;

/// Adds the names of globals, in order.
pub fn add_globals<'a>(
    used: &mut Vec<&'a Name>,
    globals: &'a [(Name, Shape, Option<Kind>, bool)],
) -> Result<(), AllocError>
    ensures { OnOk result (map (λ name. name.now) used.new.items ≡ map (λ name. name.now) used.old.items ++ map (λ g. g.0) globals.now) }
{
    for global in globals {
        used.push(&global.0)?;
    }
    Ok(())
}

/// Adds the names of globals with their weights.
fn add_references<'a>(
    used: &mut Vec<&'a Name>,
    refs: &'a [(Name, u64, u64)],
) -> Result<(), AllocError>
    ensures { OnOk result (map (λ name. name.now) used.new.items ≡ map (λ name. name.now) used.old.items ++ map (λ r. r.0) refs.now) }
{
    for reference in refs {
        used.push(&reference.0)?;
    }
    Ok(())
}

/// Adds the names that a function uses.
fn add_uses<'a>(used: &mut Vec<&'a Name>, uses: &'a Uses) -> Result<(), AllocError>
    ensures { OnOk result (map (λ name. name.now) used.new.items ≡ map (λ name. name.now) used.old.items ++ names_of_uses uses.now) }
{
    add_names(used, uses.calls.as_slice())?;
    add_references(used, uses.refs.as_slice())
}

/// Adds the names that functions use, in order: the called ones of each, and then its globals.
pub fn add_all_uses<'a>(used: &mut Vec<&'a Name>, all: &'a [Uses]) -> Result<(), AllocError>
    ensures { OnOk result (map (λ name. name.now) used.new.items ≡ map (λ name. name.now) used.old.items ++ flat_map names_of_uses all.now) }
{
    for uses in all {
        add_uses(used, uses)?;
    }
    Ok(())
}
