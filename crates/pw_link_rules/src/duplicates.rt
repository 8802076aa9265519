//! Names that are defined twice.

ghost use Rattle.std.specs.Prelude.{◌≡◌, ◌+◌, ◌↔◌, ℕ, List, map, IsTrue, MatchOption, IfOk};
ghost use Rattle.std.specs.List.Sorted.{IsPermutation, IsSortedBy};
ghost use Rattle.pw_link_rules.specs.Linking.{library, defined_once, Answers};
ghost use Rattle.pw_link_rules.specs.Entries.{definition, stands_before, IsAgain, AreFirst, AreNone};

use crate::interface::Interface;
use crate::names::{Defined, definitions};
use crate::same::is_same;
use pw_value::LinkFault;
use pw_value::program_names::is_ordinary;
use std::alloc::{AllocError, Global};

/// Definitions by name, and those of a name by module.
fn sorted<'a>(mut all: Vec<Defined<'a>>) -> Vec<Defined<'a>>
    ensures same { IsPermutation (map definition all.entry.items) (map definition result.items) }
    ensures order { IsSortedBy stands_before (map definition result.items) }
{
    all.sort_unstable_by(|one, other| one.name.cmp(other.name).then(one.module.cmp(other.module)));
    all
}

/// Whether the other one defines the same name again.
fn is_again(one: &Defined, other: &Defined) -> bool
    ensures { IsTrue result ↔ IsAgain (definition one.now) (definition other.now) }
{
    is_ordinary(one.name) && is_same(one.name, other.name)
}

/// The first definition that is followed by another of its name.
fn first_again(all: &[Defined]) -> Option<usize>
    requires { IsSortedBy stands_before (map definition all.now) }
    ensures { MatchOption result (AreNone IsAgain (map definition all.now)) (λ i. AreFirst (λ d. d) IsAgain (map definition all.now) i (i + 1)) }
{
    for i in 1..all.len() {
        if is_again(&all[i - 1], &all[i]) {
            return Some(i - 1);
        }
    }
    None
}

/// What is told of two definitions of a name.
fn told(alloc: Global, one: &Defined, other: &Defined) -> Result<LinkFault, AllocError>
    ensures { IfOk result (λ fault. fault ≡ LinkFault.Duplicate one.now.name.now one.now.module.now other.now.module.now) }
{
    let name = one.name.copy(alloc)?;
    let first = one.module.copy(alloc)?;
    let second = other.module.copy(alloc)?;
    Ok(LinkFault::Duplicate(name, first, second))
}

/// The test that no name is defined twice.
pub(crate) fn check_once(
    alloc: Global,
    built_in: &Interface,
    modules: &[Interface],
) -> Result<(), LinkFault>
    requires { built_in.now ≡ library }
    ensures { Answers defined_once modules.now result }
{
    let all = sorted(definitions(alloc, built_in, modules)?);
    match first_again(&all) {
        Some(i) => Err(told(alloc, &all[i], &all[i + 1])?),
        None => Ok(()),
    }
}
