//! Who calls whom.

ghost use Rattle.std.specs.Prelude.{◌≡◌, ℕ, ◌<◌, ◌≤◌, ◌^◌, ◌⊎◌, ◌↔◌, ◌++◌, ◌∷◌, [], length, map, option_map, All, Contains, IfOk, OnOk};
ghost use Rattle.std.specs.List.{flat_map, filter_map, AllZip, AllByRecursion};
ghost use Rattle.pw_fix.specs.Row.{Holds, members};
ghost use Rattle.pw_fields.specs.FieldNames.{IsRisingFrom};
ghost use Rattle.pw_graph.specs.Making.{home as home_of, target as target_of, targets_from, place_in, place_if as place_of_shape, of_shape, callees as places_of_callees, IsCallRow};

use crate::eligible::is_among;
use crate::homes::Home;
use crate::places::place_of;
use pw_fix::BitRow;
use pw_items::Items;
use pw_summary::Uses;
use pw_value::{Name, Shape};
use std::alloc::{AllocError, Global};

/// A function that may be called through a value: its shape and its place.
#[derive(Clone, Copy)]
pub(crate) struct Target<'a> {
    pub shape: &'a Shape,
    pub place: usize,
}

/// Adds a function, where its address is taken.
fn add_target<'a>(
    found: &mut Vec<Target<'a>>,
    home: &Home<'a>,
    place: usize,
    taken: &[Name],
) -> Result<(), AllocError>
    requires { IsRisingFrom [] taken.now }
    ensures { OnOk result (map target_of found.new.items ≡ map target_of found.old.items ++ targets_from taken.now place (home_of home.now ∷ [])) }
{
    if is_among(taken, home.name) {
        found.push(Target {
            shape: home.shape,
            place,
        })?;
    }
    Ok(())
}

/// The functions whose address is taken.
pub(crate) fn targets<'a>(
    alloc: Global,
    homes: &[Home<'a>],
    taken: &[Name],
) -> Result<Vec<Target<'a>>, AllocError>
    requires { IsRisingFrom [] taken.now }
    ensures { IfOk result (λ v. map target_of v.items ≡ targets_from taken.now 0 (map home_of homes.now)) }
{
    let mut found = Vec::new(alloc);
    for place in 0..homes.len() {
        add_target(&mut found, &homes[place], place, taken)?;
    }
    Ok(found)
}

/// Adds the functions of these names.
fn add_named(row: &mut BitRow, names: &[Name], calls: &[Name])
    requires rising { IsRisingFrom [] names.now }
    requires places { row.old.len ≡ length names.now }
    ensures length { row.new.len ≡ row.old.len }
    ensures holds { (b : ℕ) → Holds row.new b ↔ (Holds row.old b ⊎ Contains (filter_map (place_in names.now) calls.now) b) }
{
    for name in calls {
        match place_of(names, name) {
            Some(place) => {
                row.insert(place);
            }
            None => {}
        }
    }
}

/// The place of a function, where it has this shape.
fn place_if(target: &Target, shape: &Shape) -> Option<usize>
    ensures { result ≡ place_of_shape shape.now (target_of target.now) }
{
    if target.shape.as_bytes() == shape.as_bytes() {
        Some(target.place)
    } else {
        None
    }
}

/// Adds the functions of a shape.
fn add_shape(row: &mut BitRow, targets: &[Target], shape: &Shape)
    requires { AllByRecursion (λ t. t.1 < row.old.len) (map target_of targets.now) }
    ensures length { row.new.len ≡ row.old.len }
    ensures holds { (b : ℕ) → Holds row.new b ↔ (Holds row.old b ⊎ Contains (of_shape (map target_of targets.now) shape.now) b) }
{
    for target in targets {
        match place_if(target, shape) {
            Some(place) => {
                row.insert(place);
            }
            None => {}
        }
    }
}

/// Adds the functions of these shapes.
fn add_shapes(row: &mut BitRow, targets: &[Target], shapes: &[Shape])
    requires { AllByRecursion (λ t. t.1 < row.old.len) (map target_of targets.now) }
    ensures length { row.new.len ≡ row.old.len }
    ensures holds { (b : ℕ) → Holds row.new b ↔ (Holds row.old b ⊎ Contains (flat_map (of_shape (map target_of targets.now)) shapes.now) b) }
{
    for shape in shapes {
        add_shape(row, targets, shape);
    }
}

/// The functions that a function calls, as a set.
fn callees(
    alloc: Global,
    names: &[Name],
    targets: &[Target],
    uses: Option<&Uses>,
) -> Result<BitRow, AllocError>
    requires rising { IsRisingFrom [] names.now }
    requires targets { AllByRecursion (λ t. t.1 < length names.now) (map target_of targets.now) }
    ensures length { IfOk result (λ row. row.len ≡ length names.now) }
    ensures holds { IfOk result (λ row. (b : ℕ) → Holds row b ↔ Contains (places_of_callees names.now (map target_of targets.now) (option_map (λ u. u.now) uses.entry)) b) }
{
    let mut row = BitRow::new(alloc, names.len())?;
    match uses {
        None => Ok(row),
        Some(uses) => {
            add_named(&mut row, names, uses.calls.as_slice());
            add_shapes(&mut row, targets, uses.shapes.as_slice());
            Ok(row)
        }
    }
}

/// The numbers of a set, rising.
pub fn numbers(alloc: Global, row: &BitRow) -> Result<Vec<usize>, AllocError>
    ensures { IfOk result (λ v. v.items ≡ members row.now) }
{
    let mut places = Vec::new(alloc);
    for place in row.iter() {
        places.push(place)?;
    }
    Ok(places)
}

/// The same numbers again, of 32 bits each.
fn narrowed(alloc: Global, places: &[usize]) -> Result<Items<u32>, AllocError>
    requires { All (λ p. p < 2 ^ 32) places.now }
    ensures { IfOk result (λ v. v ≡ places.now) }
{
    let mut narrow = Items::new(alloc);
    for place in places {
        narrow.push(*place as u32)?;
    }
    Ok(narrow)
}

/// The numbers of a set, rising.
fn listed(alloc: Global, row: &BitRow) -> Result<Items<u32>, AllocError>
    requires { row.now.len ≤ 2 ^ 32 }
    ensures { IfOk result (λ v. v ≡ members row.now) }
{
    let places = numbers(alloc, row)?;
    narrowed(alloc, &places)
}

/// For each function the places of those that it calls.
pub(crate) fn call_rows(
    alloc: Global,
    names: &[Name],
    targets: &[Target],
    homes: &[Home],
) -> Result<Items<Items<u32>>, AllocError>
    requires count { length names.now ≤ 2 ^ 32 }
    requires rising { IsRisingFrom [] names.now }
    requires targets { AllByRecursion (λ t. t.1 < length names.now) (map target_of targets.now) }
    ensures { IfOk result (λ v. AllZip (IsCallRow names.now (map target_of targets.now)) (map home_of homes.now) v) }
{
    let mut rows = Items::new(alloc);
    for home in homes {
        let row = callees(alloc, names, targets, home.uses)?;
        rows.push(listed(alloc, &row)?)?;
    }
    Ok(rows)
}
