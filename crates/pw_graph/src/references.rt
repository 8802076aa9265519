//! Who refers to a global.

ghost use Rattle.std.specs.Prelude.{◌≡◌, ◌≤◌, ◌^◌, [], length, map, option_map, IfOk};
ghost use Rattle.std.specs.List.{filter_map};
ghost use Rattle.pw_fields.specs.FieldNames.{IsRisingFrom};
ghost use Rattle.pw_graph.specs.Making.{home, placed as placed_ref, ref_row as refs_of};

use crate::homes::Home;
use crate::places::place_of;
use pw_items::Items;
use pw_summary::Uses;
use pw_value::Name;
use std::alloc::{AllocError, Global};

/// The places of the globals among these references, with the weights.
fn placed(
    alloc: Global,
    globals: &[Name],
    refs: &[(Name, u64, u64)],
) -> Result<Items<(u32, u64, u64)>, AllocError>
    requires count { length globals.now ≤ 2 ^ 32 }
    requires rising { IsRisingFrom [] globals.now }
    ensures { IfOk result (λ v. v ≡ filter_map (placed_ref globals.now) refs.now) }
{
    let mut row = Items::new(alloc);
    for (name, reads, writes) in refs {
        match place_of(globals, name) {
            Some(place) => row.push((place as u32, *reads, *writes))?,
            None => {}
        }
    }
    Ok(row)
}

/// The globals to which a function refers.
fn ref_row(
    alloc: Global,
    globals: &[Name],
    uses: Option<&Uses>,
) -> Result<Items<(u32, u64, u64)>, AllocError>
    requires count { length globals.now ≤ 2 ^ 32 }
    requires rising { IsRisingFrom [] globals.now }
    ensures { IfOk result (λ v. v ≡ refs_of globals.now (option_map (λ u. u.now) uses.entry)) }
{
    match uses {
        Some(uses) => placed(alloc, globals, uses.refs.as_slice()),
        None => Ok(Items::new(alloc)),
    }
}

/// For each function the places of the globals to which it refers.
pub(crate) fn ref_rows(
    alloc: Global,
    globals: &[Name],
    homes: &[Home],
) -> Result<Items<Items<(u32, u64, u64)>>, AllocError>
    requires count { length globals.now ≤ 2 ^ 32 }
    requires rising { IsRisingFrom [] globals.now }
    ensures { IfOk result (λ v. v ≡ map (λ h. refs_of globals.now h.2) (map home homes.now)) }
{
    let mut rows = Items::new(alloc);
    for home in homes {
        rows.push(ref_row(alloc, globals, home.uses)?)?;
    }
    Ok(rows)
}
