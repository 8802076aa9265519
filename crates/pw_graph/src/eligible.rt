//! The globals that may live in registers.

ghost use Rattle.std.specs.Prelude.{◌≡◌, ◌++◌, [], length, map, option_map, IfOk, OnOk};
ghost use Rattle.std.specs.List.{IsDistinct};
ghost use Rattle.std.specs.Str.{bytes_eq};
ghost use Rattle.pw_fields.specs.FieldNames.{IsRisingFrom, IsTableOf, is_among as among};
ghost use Rattle.pw_graph.specs.Making.{IsOrdered, scalar, all_taken, all_escaped, eligible_one, eligible_in, all_eligible};

use pw_fields::names::{find_name, table_of};
use pw_files::used::{add_names, add_shaped};
use pw_items::Items;
use pw_summary::Summary;
use pw_value::{Kind, Name, Shape};
use std::alloc::{AllocError, Global};

/// A global with its kind.
#[derive(Clone, Copy)]
pub(crate) struct Scalar<'a> {
    pub name: &'a Name,
    pub kind: Kind,
}

/// The functions whose address a module takes.
pub fn taken_names(alloc: Global, summaries: &[Summary]) -> Result<Vec<Name>, AllocError>
    ensures { IfOk result (λ v. IsTableOf v.items (all_taken summaries.now)) }
{
    let mut names = Vec::new(alloc);
    for each in summaries {
        add_shaped(&mut names, each.taken.as_slice())?;
    }
    table_of(alloc, names)
}

/// The globals whose address a module takes.
pub fn escaped_names(alloc: Global, summaries: &[Summary]) -> Result<Vec<Name>, AllocError>
    ensures { IfOk result (λ v. IsTableOf v.items (all_escaped summaries.now)) }
{
    let mut names = Vec::new(alloc);
    for each in summaries {
        add_names(&mut names, each.escaped.as_slice())?;
    }
    table_of(alloc, names)
}

/// Whether a name is one of these.
pub fn is_among(names: &[Name], name: &Name) -> bool
    requires { IsRisingFrom [] names.now }
    ensures { result ≡ among names.now name.now }
{
    find_name(names, name).is_some()
}

/// A global, where it is a scalar that is not volatile and whose address no module takes.
fn if_eligible<'a>(
    global: &'a (Name, Shape, Option<Kind>, bool),
    taken: &[Name],
    escaped: &[Name],
) -> Option<Scalar<'a>>
    requires taken { IsRisingFrom [] taken.now }
    requires escaped { IsRisingFrom [] escaped.now }
    ensures { option_map scalar result ≡ eligible_one taken.now escaped.now global.now }
{
    let name = &global.0;
    let barred = global.3 || is_among(taken, name) || is_among(escaped, name);
    match global.2 {
        Some(kind) if !barred => Some(Scalar { name, kind }),
        _ => None,
    }
}

/// Adds the eligible ones among a module's globals.
fn add_eligible<'a>(
    found: &mut Vec<Scalar<'a>>,
    globals: &'a [(Name, Shape, Option<Kind>, bool)],
    taken: &[Name],
    escaped: &[Name],
) -> Result<(), AllocError>
    requires taken { IsRisingFrom [] taken.now }
    requires escaped { IsRisingFrom [] escaped.now }
    ensures { OnOk result (map scalar found.new.items ≡ map scalar found.old.items ++ eligible_in taken.now escaped.now globals.now) }
{
    for global in globals {
        match if_eligible(global, taken, escaped) {
            Some(eligible) => found.push(eligible)?,
            None => {}
        }
    }
    Ok(())
}

/// Those of all modules.
fn collected<'a>(
    alloc: Global,
    summaries: &'a [Summary],
    taken: &[Name],
    escaped: &[Name],
) -> Result<Vec<Scalar<'a>>, AllocError>
    requires taken { IsRisingFrom [] taken.now }
    requires escaped { IsRisingFrom [] escaped.now }
    ensures { IfOk result (λ v. map scalar v.items ≡ all_eligible taken.now escaped.now summaries.now) }
{
    let mut found = Vec::new(alloc);
    for each in summaries {
        add_eligible(&mut found, each.globals.as_slice(), taken, escaped)?;
    }
    Ok(found)
}

/// Those of all modules, in byte order.
pub(crate) fn eligible<'a>(
    alloc: Global,
    summaries: &'a [Summary],
    taken: &[Name],
    escaped: &[Name],
) -> Result<Vec<Scalar<'a>>, AllocError>
    requires taken { IsRisingFrom [] taken.now }
    requires escaped { IsRisingFrom [] escaped.now }
    requires distinct { IsDistinct bytes_eq (map (λ v. v.0) (all_eligible taken.now escaped.now summaries.now)) }
    ensures order { IfOk result (λ v. IsOrdered (λ v. v.0) (all_eligible taken.now escaped.now summaries.now) (map scalar v.items)) }
    ensures count { IfOk result (λ v. length (map scalar v.items) ≡ length (all_eligible taken.now escaped.now summaries.now)) }
{
    let mut found = collected(alloc, summaries, taken, escaped)?;
    found.sort_unstable_by(|one, other| one.name.cmp(other.name));
    Ok(found)
}

/// The names of globals, in byte order.
pub(crate) fn scalar_names(alloc: Global, globals: &[Scalar]) -> Result<Vec<Name>, AllocError>
    ensures { IfOk result (λ v. IsTableOf v.items (map (λ v. v.0) (map scalar globals.now))) }
{
    let mut names = Vec::new(alloc);
    for global in globals {
        names.push(global.name)?;
    }
    table_of(alloc, names)
}

/// The globals themselves.
pub(crate) fn copied(alloc: Global, globals: &[Scalar]) -> Result<Items<(Name, Kind)>, AllocError>
    ensures { IfOk result (λ v. v ≡ map scalar globals.now) }
{
    let mut copies = Items::new(alloc);
    for global in globals {
        copies.push((global.name.copy(alloc)?, global.kind))?;
    }
    Ok(copies)
}
