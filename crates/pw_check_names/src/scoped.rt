//! The names in scope with the depths of their scopes.

ghost use Rattle.std.specs.Prelude.{◌≡◌, [], ◌∷◌, ◌++◌, ◌==◌, filter, drop, OnOk, IfOk};
ghost use Rattle.pw_scope.specs.Visible.{visible};
ghost use Rattle.pw_check_names.specs.Scoping.{deeper, found_names, left, names_here, no_names, places_in, tags_here, tags_in};

use pw_check_rules::{Entry, Tag, TagEntry};
use pw_scope::Scopes;
use pw_value::words::next_word;
use std::alloc::{AllocError, Global};
use std::marker::Model;

/// How many names and tags there were at the start of a scope.
#[derive(Clone, Copy)]
pub(crate) struct Start {
    names: usize,
    tags: usize,
}

/// The names and tags in scope at a place of a text, and how many scopes are around (C90 6.1.2.1). A contract sees
/// the two lists, the newest last, and the depth.
#[derive(Drop)]
pub struct VisibleNames<'a> {
    ordinary: Scopes<'a, Entry>,
    tags: Scopes<'a, TagEntry>,
    starts: Vec<Start>,
    depth: u32,
}

impl<'a> Model for VisibleNames<'a> {
    ghost use Rattle.pw_check_names.specs.Scoping.{NamesInScope};

    ghost Value = { NamesInScope };

    ghost use Rattle.pw_check_names.specs.Nesting.{IsScoped};

    ghost view = { λ inside. record { ordinary = inside.ordinary; tags = inside.tags; depth = inside.depth } };

    ghost invariant = { λ inside. IsScoped inside.ordinary inside.tags inside.starts.items inside.depth };
}

impl<'a> VisibleNames<'a> {
    /// No names, at file scope.
    pub fn new(alloc: Global) -> VisibleNames<'a>
        ensures { result ≡ no_names }
    {
        VisibleNames {
            ordinary: Scopes::new(alloc),
            tags: Scopes::new(alloc),
            starts: Vec::new(alloc),
            depth: 0,
        }
    }

    /// How many scopes are around.
    pub fn depth(&self) -> u32
        ensures { result ≡ self.now.depth }
    {
        self.depth
    }

    /// What a name stands for.
    pub fn visible(&self, name: &[u8]) -> Option<Entry>
        ensures { result ≡ visible self.now.ordinary name.now }
    {
        self.ordinary.visible(name)
    }

    /// What a tag stands for at this place of the text, with the depth of the scope that declares it (C90 6.1.2.1),
    /// or None where no declaration of it is visible.
    pub fn visible_tag(&self, name: &[u8]) -> Option<TagEntry>
        ensures { result ≡ visible self.now.tags name.now }
    {
        self.tags.visible(name)
    }

    /// Declares a name in the scope that is read.
    pub fn declare(&mut self, name: &'a [u8], place: u32) -> Result<(), AllocError>
        ensures { OnOk result (self.new ≡ record self.old { ordinary = self.old.ordinary ++ (name.now, record { place = place; depth = self.old.depth }) ∷ [] }) }
    {
        let depth = self.depth;
        self.ordinary.declare(name, Entry { place, depth })
    }

    /// Declares a tag in the scope that is read.
    pub fn declare_tag(&mut self, name: &'a [u8], tag: Tag) -> Result<(), AllocError>
        ensures { OnOk result (self.new ≡ record self.old { tags = self.old.tags ++ (name.now, record { tag = tag; depth = self.old.depth }) ∷ [] }) }
    {
        let depth = self.depth;
        self.tags.declare(name, TagEntry { tag, depth })
    }

    /// Enters a scope, within those that are around. A depth past 32 bits is want of memory.
    pub fn enter(&mut self) -> Result<(), AllocError>
        ensures { OnOk result (self.new ≡ deeper self.old) }
    {
        let depth = next_word(self.depth)?;
        self.starts.push(Start {
            names: self.ordinary.len(),
            tags: self.tags.len(),
        })?;
        self.depth = depth;
        Ok(())
    }

    /// Leaves a scope: its names are gone, and what they hid is visible again.
    pub fn leave(&mut self)
        ensures { self.new ≡ left self.old }
    {
        match self.starts.pop() {
            Some(start) => {
                self.ordinary.leave(start.names);
                self.tags.leave(start.tags);
                self.depth -= 1;
            }
            None => {
                self.ordinary.leave(0);
                self.tags.leave(0);
            }
        }
    }

    /// The names of the scope that is read, each with its place.
    pub fn names_here(&self, alloc: Global) -> Result<Vec<(&'a [u8], u32)>, AllocError>
        ensures { IfOk result (λ found. found_names found.items ≡ names_here self.now) }
    {
        let entries = self.ordinary.since(alloc, self.names_from())?;
        places_of(alloc, &entries)
    }

    /// The tags of the scope that is read.
    pub fn tags_here(&self, alloc: Global) -> Result<Vec<(&'a [u8], Tag)>, AllocError>
        ensures { IfOk result (λ found. found_names found.items ≡ tags_here self.now) }
    {
        let entries = self.tags.since(alloc, self.tags_from())?;
        tags_of(alloc, &entries)
    }

    // How many names stand before the scope that is read.
    fn names_from(&self) -> usize
        ensures { filter (λ e. e.1.depth == self.now.depth) self.now.ordinary ≡ drop result self.now.ordinary }
    {
        match self.starts.last() {
            Some(start) => start.names,
            None => 0,
        }
    }

    // How many tags stand before the scope that is read.
    fn tags_from(&self) -> usize
        ensures { filter (λ e. e.1.depth == self.now.depth) self.now.tags ≡ drop result self.now.tags }
    {
        match self.starts.last() {
            Some(start) => start.tags,
            None => 0,
        }
    }
}

// The names with their places.
fn places_of<'a>(
    alloc: Global,
    entries: &[(&'a [u8], Entry)],
) -> Result<Vec<(&'a [u8], u32)>, AllocError>
    ensures { IfOk result (λ found. found_names found.items ≡ places_in (found_names entries.now)) }
{
    let mut found = Vec::new(alloc);
    for entry in entries {
        found.push((entry.0, entry.1.place))?;
    }
    Ok(found)
}

// The tags with what they name.
fn tags_of<'a>(
    alloc: Global,
    entries: &[(&'a [u8], TagEntry)],
) -> Result<Vec<(&'a [u8], Tag)>, AllocError>
    ensures { IfOk result (λ found. found_names found.items ≡ tags_in (found_names entries.now)) }
{
    let mut found = Vec::new(alloc);
    for entry in entries {
        found.push((entry.0, entry.1.tag))?;
    }
    Ok(found)
}
