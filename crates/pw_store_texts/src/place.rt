//! The place of a module among others.

ghost use Rattle.std.specs.Prelude.{◌≡◌, OnOk, map};
ghost use Rattle.std.specs.Cmp.Lexicographic.{slice_cmp};
ghost use Rattle.std.specs.FinMap.Entries.{put};
ghost use Rattle.std.specs.Ordering.{nat_cmp};
ghost use Rattle.pw_store_modules.specs.Views.{source};
ghost use Rattle.pw_store_texts.specs.Placing.{Places};

use pw_store_modules::Module;
use pw_value::Name;
use std::alloc::AllocError;
use std::cmp::Ordering;

/// Where a module of this name stands among modules in the order of their names; or, as an error, where it would stand.
fn place_of(modules: &[Module], name: &Name) -> Result<usize, usize>
    ensures { Places (map source modules.now) name.now result }
{
    for (i, other) in modules.iter().enumerate() {
        match name.cmp(&other.name) {
            Ordering::Less => return Err(i),
            Ordering::Equal => return Ok(i),
            Ordering::Greater => {}
        }
    }
    Err(modules.len())
}

/// Puts a module into its place among modules in the order of their names. One of the same name goes.
pub(crate) fn put_module(modules: &mut Vec<Module>, one: Module) -> Result<(), AllocError>
    ensures { OnOk result (map source modules.new.items ≡ put (slice_cmp nat_cmp) one.name one.text.items (map source modules.old.items)) }
{
    match place_of(modules, &one.name) {
        Ok(at) => modules[at] = one,
        Err(at) => modules.insert(at, one)?,
    }
    Ok(())
}
