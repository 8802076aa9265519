//! The functions of a program in byte order, with what they use.

ghost use Rattle.std.specs.Prelude.{ℕ, ◌≡◌, ◌<◌, ◌++◌, List, length, slice_get, Some, map, option_map, IfOk, OnOk};
ghost use Rattle.std.specs.List.{IsDistinct};
ghost use Rattle.std.specs.Str.{bytes_eq};
ghost use Rattle.pw_fields.specs.FieldNames.{IsTableOf};
ghost use Rattle.pw_link_rules.specs.Linking.{library as the_library};
ghost use Rattle.pw_graph.specs.Making.{IsOrdered, home, homes_in, all_homes, need_of};

use pw_fields::names::table_of;
use pw_items::Items;
use pw_link_rules::Interface;
use pw_summary::{Summary, Uses};
use pw_value::{Name, Shape};
use std::alloc::{AllocError, Global};

/// A function with its shape and what it uses, which is nothing where the library defines it.
#[derive(Clone, Copy)]
pub(crate) struct Home<'a> {
    pub name: &'a Name,
    pub shape: &'a Shape,
    pub uses: Option<&'a Uses>,
}

/// A function with what it uses, which stands at the same place.
fn home_at<'a>(functions: &'a [(Name, Shape)], uses: &'a [Uses], i: usize) -> Home<'a>
    requires { i < length functions.now }
    ensures { (f : List ℕ × List ℕ) → slice_get functions.now i ≡ Some f → home result ≡ (f.0, f.1, slice_get uses.now i) }
{
    let function = &functions[i];
    Home {
        name: &function.0,
        shape: &function.1,
        uses: uses.get(i),
    }
}

/// Adds functions with what they use, in the same order.
fn add_homes<'a>(
    all: &mut Vec<Home<'a>>,
    functions: &'a [(Name, Shape)],
    uses: &'a [Uses],
) -> Result<(), AllocError>
    ensures { OnOk result (map home all.new.items ≡ map home all.old.items ++ homes_in functions.now uses.now) }
{
    for i in 0..functions.len() {
        all.push(home_at(functions, uses, i))?;
    }
    Ok(())
}

/// All functions, the library's first.
fn collected<'a>(
    alloc: Global,
    library: &'a Interface,
    summaries: &'a [Summary],
) -> Result<Vec<Home<'a>>, AllocError>
    requires { library.now ≡ the_library }
    ensures { IfOk result (λ v. map home v.items ≡ all_homes summaries.now) }
{
    let mut all = Vec::new(alloc);
    add_homes(&mut all, library.declared.as_slice(), &[])?;
    for each in summaries {
        add_homes(&mut all, each.functions.as_slice(), each.uses.as_slice())?;
    }
    Ok(all)
}

/// All functions in byte order.
pub(crate) fn sorted_homes<'a>(
    alloc: Global,
    library: &'a Interface,
    summaries: &'a [Summary],
) -> Result<Vec<Home<'a>>, AllocError>
    requires library { library.now ≡ the_library }
    requires distinct { IsDistinct bytes_eq (map (λ h. h.0) (all_homes summaries.now)) }
    ensures order { IfOk result (λ v. IsOrdered (λ h. h.0) (all_homes summaries.now) (map home v.items)) }
    ensures count { IfOk result (λ v. length (map home v.items) ≡ length (all_homes summaries.now)) }
{
    let mut all = collected(alloc, library, summaries)?;
    all.sort_unstable_by(|one, other| one.name.cmp(other.name));
    Ok(all)
}

/// The names of functions, in byte order.
pub(crate) fn home_names(alloc: Global, homes: &[Home]) -> Result<Vec<Name>, AllocError>
    ensures { IfOk result (λ v. IsTableOf v.items (map (λ h. h.0) (map home homes.now))) }
{
    let mut names = Vec::new(alloc);
    for home in homes {
        names.push(home.name)?;
    }
    table_of(alloc, names)
}

/// How many registers a function needs: none where the library defines it.
fn need(uses: Option<&Uses>) -> u8
    ensures { result ≡ need_of (option_map (λ u. u.now) uses.entry) }
{
    match uses {
        Some(uses) => uses.need,
        None => 0,
    }
}

/// How many registers each function needs.
pub(crate) fn home_needs(alloc: Global, homes: &[Home]) -> Result<Items<u8>, AllocError>
    ensures { IfOk result (λ v. v ≡ map (λ h. need_of h.2) (map home homes.now)) }
{
    let mut needs = Items::new(alloc);
    for home in homes {
        needs.push(need(home.uses))?;
    }
    Ok(needs)
}
