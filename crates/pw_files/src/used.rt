//! Collecting the names that a file uses, from which its table is made and against which it is checked.

ghost use Rattle.std.specs.Prelude.{◌≡◌, ◌++◌, map, OnOk};

use pw_value::{Name, Shape};
use std::alloc::AllocError;

/// Adds names behind those that are used so far, with repeats.
pub fn add_names<'a>(used: &mut Vec<&'a Name>, names: &'a [Name]) -> Result<(), AllocError>
    ensures { OnOk result (map (λ name. name.now) used.new.items ≡ map (λ name. name.now) used.old.items ++ names.now) }
{
    for name in names {
        used.push(name)?;
    }
    Ok(())
}

/// Adds the names out of a list of declarations, which are names with shapes, in order.
pub fn add_shaped<'a>(
    used: &mut Vec<&'a Name>,
    items: &'a [(Name, Shape)],
) -> Result<(), AllocError>
    ensures { OnOk result (map (λ name. name.now) used.new.items ≡ map (λ name. name.now) used.old.items ++ map (λ f. f.0) items.now) }
{
    for item in items {
        used.push(&item.0)?;
    }
    Ok(())
}
