//! Sets of names.

ghost use Rattle.std.specs.Prelude.{◌≡◌, ◌<◌, ◌≤◌, [], ◌∷◌, ◌++◌, if◌then◌else◌, length, map, IfOk, MatchOption, OnOk};
ghost use Rattle.pw_cpp_sets.specs.Sets as spec;
ghost use Rattle.pw_cpp_sets.specs.Sets.{AreBehind, IsMadeBy, Keeps, set_at, sets_of};

use std::alloc::{AllocError, Global};
use std::marker::Model;

/// A set: its first name, and the number of the set of the others.
#[derive(Clone, Copy)]
pub struct Node<'a> {
    name: &'a [u8],
    rest: usize,
}

/// Sets of names, each known by a number; the empty one has number 0. A contract sees them as the list of the sets by their numbers.
#[derive(Drop)]
pub struct Sets<'a> {
    // Of the set number n + 1 the node number n.
    nodes: Vec<Node<'a>>,
}

impl<'a> Model for Sets<'a> {
    ghost use Rattle.pw_cpp_sets.specs.Sets.{AreBehind, Known, sets_of};

    ghost Value = { Known };

    ghost view = { λ inside. sets_of inside.nodes.items };

    ghost invariant = { λ inside. AreBehind 0 inside.nodes.items };
}

/// The node that makes a set, or None for the empty set.
fn node_of<'a>(nodes: &[Node<'a>], set: usize) -> Option<Node<'a>>
    requires known { set ≤ length nodes.now }
    requires behind { AreBehind 0 nodes.now }
    ensures { MatchOption result (set_at (sets_of nodes.now) set ≡ []) (λ node. IsMadeBy nodes.now set node) }
{
    if set == 0 {
        return None;
    }
    let node = nodes[set - 1];
    Some(node)
}

/// Whether a name is in a set.
fn is_in(nodes: &[Node], set: usize, name: &[u8]) -> bool
    requires known { set ≤ length nodes.now }
    requires behind { AreBehind 0 nodes.now }
    ensures { result ≡ spec.contains (set_at (sets_of nodes.now) set) name.now }
{
    let mut number = set;
    while let Some(node) = node_of(nodes, number) {
        if name == node.name {
            return true;
        }
        number = node.rest;
    }
    false
}

/// The names of a set, the first one first.
fn names_of<'a>(alloc: Global, nodes: &[Node<'a>], set: usize) -> Result<Vec<&'a [u8]>, AllocError>
    requires known { set ≤ length nodes.now }
    requires behind { AreBehind 0 nodes.now }
    ensures { IfOk result (λ names. map (λ name. name.now) names.items ≡ set_at (sets_of nodes.now) set) }
{
    let mut names = Vec::new(alloc);
    let mut number = set;
    while let Some(node) = node_of(nodes, number) {
        names.push(node.name)?;
        number = node.rest;
    }
    Ok(names)
}

/// Adds a name that is wanted.
fn push_wanted<'a>(
    names: &mut Vec<&'a [u8]>,
    wanted: bool,
    name: &'a [u8],
) -> Result<(), AllocError>
    ensures { OnOk result (names.new.items ≡ (if wanted then names.old.items ++ name.entry ∷ [] else names.old.items)) }
{
    if wanted {
        names.push(name)?;
    }
    Ok(())
}

/// The names of a set that are in another one too.
fn names_shared<'a>(
    alloc: Global,
    nodes: &[Node<'a>],
    one: usize,
    other: usize,
) -> Result<Vec<&'a [u8]>, AllocError>
    requires one { one ≤ length nodes.now }
    requires other { other ≤ length nodes.now }
    requires behind { AreBehind 0 nodes.now }
    ensures { IfOk result (λ names. map (λ name. name.now) names.items ≡ spec.shared (set_at (sets_of nodes.now) one) (set_at (sets_of nodes.now) other)) }
{
    let mut names = Vec::new(alloc);
    let mut number = one;
    while let Some(node) = node_of(nodes, number) {
        let wanted = is_in(nodes, other, node.name);
        push_wanted(&mut names, wanted, node.name)?;
        number = node.rest;
    }
    Ok(names)
}

impl<'a> Sets<'a> {
    /// The empty set alone.
    pub fn new(alloc: Global) -> Self
        ensures { result ≡ [] ∷ [] }
    {
        Sets {
            nodes: Vec::new(alloc),
        }
    }

    /// Whether a name is in a set.
    pub fn contains(&self, set: usize, name: &[u8]) -> bool
        requires { set < length self.now }
        ensures { result ≡ spec.contains (set_at self.now set) name.now }
    {
        is_in(&self.nodes, set, name)
    }

    /// The number of a new set, which has a name and those of a set.
    pub fn with_name(&mut self, name: &'a [u8], set: usize) -> Result<usize, AllocError>
        requires { set < length self.old }
        ensures keeps { Keeps self.old self.new }
        ensures number { IfOk result (λ number. (number < length self.new) × (set_at self.new number ≡ name.now ∷ set_at self.old set)) }
    {
        self.nodes.push(Node { name, rest: set })?;
        Ok(self.nodes.len())
    }

    /// The number of a set that has these names in front of those of a set.
    fn with_names(&mut self, names: Vec<&'a [u8]>, set: usize) -> Result<usize, AllocError>
        requires { set < length self.old }
        ensures keeps { Keeps self.old self.new }
        ensures number { IfOk result (λ number. (number < length self.new) × (set_at self.new number ≡ map (λ name. name.now) names.entry.items ++ set_at self.old set)) }
    {
        let mut names = names;
        let mut number = set;
        while let Some(name) = names.pop() {
            number = self.with_name(name, number)?;
        }
        Ok(number)
    }

    /// The number of a set that has the names of one set and of another.
    pub fn joined(&mut self, alloc: Global, one: usize, other: usize) -> Result<usize, AllocError>
        requires one { one < length self.old }
        requires other { other < length self.old }
        ensures keeps { Keeps self.old self.new }
        ensures number { IfOk result (λ number. (number < length self.new) × (set_at self.new number ≡ set_at self.old one ++ set_at self.old other)) }
    {
        let names = names_of(alloc, &self.nodes, one)?;
        self.with_names(names, other)
    }

    /// The number of a set that has what two sets share.
    pub fn shared(&mut self, alloc: Global, one: usize, other: usize) -> Result<usize, AllocError>
        requires one { one < length self.old }
        requires other { other < length self.old }
        ensures keeps { Keeps self.old self.new }
        ensures number { IfOk result (λ number. (number < length self.new) × (set_at self.new number ≡ spec.shared (set_at self.old one) (set_at self.old other))) }
    {
        if one == other {
            return Ok(one);
        }
        let names = names_shared(alloc, &self.nodes, one, other)?;
        self.with_names(names, 0)
    }
}
