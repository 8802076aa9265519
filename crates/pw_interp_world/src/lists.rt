//! Names with a table of their places.

ghost use Rattle.std.specs.Prelude.{◌≡◌, map, IfOk};
ghost use Rattle.pw_interp_world.specs.Views.{view_callables};

use crate::program::Callable;
use pw_check_names::NameList;
use pw_value::Name;
use std::alloc::{AllocError, Global};

/// The names as a list with a table.
pub(crate) fn listed<'a>(alloc: Global, names: &'a [Name]) -> Result<NameList<'a>, AllocError>
    ensures { IfOk result (λ list. list ≡ names.now) }
{
    let mut list = NameList::new(alloc);
    for name in names {
        list.push(name.as_bytes())?;
    }
    Ok(list)
}

/// The names of functions as a list with a table.
pub(crate) fn names_of<'a>(
    alloc: Global,
    callables: &'a [Callable<'a>],
) -> Result<NameList<'a>, AllocError>
    ensures { IfOk result (λ list. list ≡ map (λ f. f.name) (view_callables callables.now)) }
{
    let mut list = NameList::new(alloc);
    for callable in callables {
        list.push(callable.name.as_bytes())?;
    }
    Ok(list)
}
