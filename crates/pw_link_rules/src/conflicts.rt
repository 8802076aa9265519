//! Names that are declared with shapes that do not agree.

ghost use Rattle.std.specs.Prelude.{◌≡◌, ◌≢◌, ◌+◌, ◌<◌, ◌≤◌, ◌↔◌, ℕ, List, length, map, Some, slice_get, IsTrue, MatchOption, IfOk};
ghost use Rattle.std.specs.List.Sorted.{IsPermutation, IsSortedBy};
ghost use Rattle.pw_link_rules.specs.Linking.{library, all_agree, Answers};
ghost use Rattle.pw_link_rules.specs.Entries.{declaration, key, stands_before, Clash, Two, AreFirst, AreNone, IsNext, IsRun, IsSoonest};

use crate::interface::Interface;
use crate::names::{Declared, declarations};
use crate::same::is_same;
use pw_value::program_names::is_ordinary;
use pw_value::{LinkFault, agree};
use std::alloc::{AllocError, Global};

/// Declarations by name, and those of a name by module.
fn sorted<'a>(mut all: Vec<Declared<'a>>) -> Vec<Declared<'a>>
    ensures same { IsPermutation (map declaration all.entry.items) (map declaration result.items) }
    ensures order { IsSortedBy (λ a b. stands_before (key a) (key b)) (map declaration result.items) }
{
    all.sort_unstable_by(|one, other| one.name.cmp(other.name).then(one.module.cmp(other.module)));
    all
}

/// Whether two declarations of a name do not agree.
fn is_clash(one: &Declared, other: &Declared) -> bool
    ensures { IsTrue result ↔ Clash (declaration one.now) (declaration other.now) }
{
    is_ordinary(one.name) && is_same(one.name, other.name) && !agree(one.shape, other.shape)
}

/// The first later declaration that does not agree with this one.
fn first_against(all: &[Declared], i: usize) -> Option<usize>
    requires place { i < length all.now }
    requires order { IsSortedBy (λ a b. stands_before (key a) (key b)) (map declaration all.now) }
    ensures { MatchOption result ((j : ℕ) → ¬ Two Clash (map declaration all.now) i j) (λ j. IsNext Clash (map declaration all.now) i j) }
{
    let one = &all[i];
    for j in i + 1..all.len() {
        let other = &all[j];
        if !is_same(one.name, other.name) {
            return None;
        }
        if is_clash(one, other) {
            return Some(j);
        }
    }
    None
}

/// Whether the other one declares the same name with the same shape.
fn is_repeated(one: &Declared, other: &Declared) -> bool
    ensures { IsTrue result → ((one.now.name.now ≡ other.now.name.now) × (one.now.shape.now ≡ other.now.shape.now)) }
{
    is_same(one.name, other.name) && one.shape.as_bytes() == other.shape.as_bytes()
}

/// The same, where all before agree with each later one. What repeats the one before it agrees with the same
/// ones, so that many declarations of one shape are gone through once.
fn next_against(all: &[Declared], i: usize) -> Option<usize>
    requires place { i < length all.now }
    requires order { IsSortedBy (λ a b. stands_before (key a) (key b)) (map declaration all.now) }
    requires before { (a b : ℕ) → Two Clash (map declaration all.now) a b → i ≤ a }
    ensures { MatchOption result ((j : ℕ) → ¬ Two Clash (map declaration all.now) i j) (λ j. IsNext Clash (map declaration all.now) i j) }
{
    if i > 0 && is_repeated(&all[i - 1], &all[i]) {
        return None;
    }
    first_against(all, i)
}

/// The first declaration with which a later one does not agree, and the first such.
fn first_clash(all: &[Declared]) -> Option<(usize, usize)>
    requires { IsSortedBy (λ a b. stands_before (key a) (key b)) (map declaration all.now) }
    ensures { MatchOption result (AreNone Clash (map declaration all.now)) (λ p. IsNext Clash (map declaration all.now) p.0 p.1 × ((a b : ℕ) → Two Clash (map declaration all.now) a b → p.0 ≤ a)) }
{
    for i in 0..all.len() {
        match next_against(all, i) {
            Some(j) => return Some((i, j)),
            None => {}
        }
    }
    None
}

/// Whether two declarations are of one name and of one module.
fn is_twin(one: &Declared, other: &Declared) -> bool
    ensures { IsTrue result ↔ ((one.now.name.now ≡ other.now.name.now) × (one.now.module.now ≡ other.now.module.now)) }
{
    is_same(one.name, other.name) && is_same(one.module, other.module)
}

/// Where the declarations of one name and one module end that begin here.
fn run_end(all: &[Declared], i: usize) -> usize
    requires { i < length all.now }
    ensures { IsRun key (map declaration all.now) i result }
{
    let one = &all[i];
    for k in i + 1..all.len() {
        if !is_twin(one, &all[k]) {
            return k;
        }
    }
    all.len()
}

/// The sooner of what was found and of what is found from here on.
fn sooner(
    all: &[Declared],
    i: usize,
    stop: usize,
    k: usize,
    found: (usize, usize),
) -> (usize, usize)
    requires order { IsSortedBy (λ a b. stands_before (key a) (key b)) (map declaration all.now) }
    requires run { IsRun key (map declaration all.now) i stop }
    requires low { i ≤ k }
    requires high { k < stop }
    requires so_far { IsSoonest (map declaration all.now) i k found.0 found.1 }
    ensures { IsSoonest (map declaration all.now) i (k + 1) result.0 result.1 }
{
    match first_against(all, k) {
        None => found,
        Some(next) => { if next < found.1 { (k, next) } else { found } }
    }
}

/// Of the declarations of one name and module, one with which the soonest later one does not agree.
fn soonest(all: &[Declared], i: usize, j: usize) -> (usize, usize)
    requires order { IsSortedBy (λ a b. stands_before (key a) (key b)) (map declaration all.now) }
    requires two { IsNext Clash (map declaration all.now) i j }
    requires first { (a b : ℕ) → Two Clash (map declaration all.now) a b → i ≤ a }
    ensures { AreFirst key Clash (map declaration all.now) result.0 result.1 }
{
    let stop = run_end(all, i);
    let mut found = (i, j);
    for k in i + 1..stop {
        found = sooner(all, i, stop, k, found);
    }
    found
}

/// What is told of two declarations of a name.
fn told(alloc: Global, one: &Declared, other: &Declared) -> Result<LinkFault, AllocError>
    ensures { IfOk result (λ fault. fault ≡ LinkFault.Conflict one.now.name.now one.now.module.now other.now.module.now) }
{
    let name = one.name.copy(alloc)?;
    let first = one.module.copy(alloc)?;
    let second = other.module.copy(alloc)?;
    Ok(LinkFault::Conflict(name, first, second))
}

/// The first two declarations that do not agree.
fn find_clash(all: &[Declared]) -> Option<(usize, usize)>
    requires { IsSortedBy (λ a b. stands_before (key a) (key b)) (map declaration all.now) }
    ensures { MatchOption result (AreNone Clash (map declaration all.now)) (λ p. AreFirst key Clash (map declaration all.now) p.0 p.1) }
{
    let (i, j) = first_clash(all)?;
    Some(soonest(all, i, j))
}

/// The test that all declarations of a name agree.
pub(crate) fn check_shapes(
    alloc: Global,
    built_in: &Interface,
    modules: &[Interface],
) -> Result<(), LinkFault>
    requires { built_in.now ≡ library }
    ensures { Answers all_agree modules.now result }
{
    let all = sorted(declarations(alloc, built_in, modules)?);
    match find_clash(&all) {
        Some((i, j)) => Err(told(alloc, &all[i], &all[j])?),
        None => Ok(()),
    }
}
