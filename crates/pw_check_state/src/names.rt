//! What the state says of names, and names that are entered into it.

ghost use Rattle.std.specs.Prelude.{◌≡◌, option_map, slice_get, OnOk, IfOk};
ghost use Rattle.std.specs.Option.{option_copied};
ghost use Rattle.pw_check_rules.specs.States as spec;
ghost use Rattle.pw_check_state.specs.Changes.{bindings_in, names_again, tags_again};
ghost use Rattle.pw_check_names.specs.Scoping.{found_names};
ghost use Rattle.pw_check_names.specs.EntityViews.{view_entity};
ghost use Rattle.pw_check_state.specs.PhraseViews.{view_parameters, view_bindings};
ghost use Rattle.pw_check_state.specs.StateViews.{view_state};
ghost use Rattle.pw_check_rules.specs.Functions.{declared_again};

use crate::phrase::{Bindings, Parameter};
use crate::places::put;
use crate::state::State;
use pw_check_names::{Entity, VisibleNames};
use pw_check_rules::{Entry, Tag};
use pw_value::words::word_of;
use std::alloc::{AllocError, Global};

#[tactic(auto, unfolding(crate::specs::StateViews::view_state), using(crate::proofs::PlaceLemmas::map_push, crate::proofs::PlaceLemmas::length_map, crate::proofs::PlaceLemmas::map_put_at))]
impl<'a> State<'a> {
    /// Whether the scope that is read is that of the file (C90 6.1.2.1).
    pub fn is_file_scope(&self) -> bool
        ensures { result ≡ spec.is_file_scope (view_state self.now) }
    {
        self.scopes.names.depth() == 0
    }

    /// The declaration of a name that is visible.
    pub fn entry_of(&self, name: &[u8]) -> Option<Entry>
        ensures { result ≡ spec.entry_of (view_state self.now) name.now }
    {
        self.scopes.names.visible(name)
    }

    /// The declaration of a name in the scope that is read.
    pub fn entry_here(&self, name: &[u8]) -> Option<Entry>
        ensures { result ≡ spec.entry_here (view_state self.now) name.now }
    {
        let entry = self.scopes.names.visible(name)?;
        if entry.depth == self.scopes.names.depth() {
            Some(entry)
        } else {
            None
        }
    }

    /// What is declared, by its place.
    pub fn entity_at(&self, place: u32) -> Option<&Entity>
        ensures { option_map view_entity (option_copied result) ≡ slice_get (view_state self.now).scopes.entities place }
    {
        self.scopes.entities.get(place as usize)
    }

    /// What a name stands for.
    pub fn entity_of(&self, name: &[u8]) -> Option<&Entity>
        ensures { option_map view_entity (option_copied result) ≡ spec.entity_of (view_state self.now) name.now }
    {
        let entry = self.entry_of(name)?;
        self.entity_at(entry.place)
    }

    /// What a name is declared as in the scope that is read.
    pub fn entity_here(&self, name: &[u8]) -> Option<&Entity>
        ensures { option_map view_entity (option_copied result) ≡ spec.entity_here (view_state self.now) name.now }
    {
        let entry = self.entry_here(name)?;
        self.entity_at(entry.place)
    }

    /// The structure, union or enumeration that a tag names at this place of the text (C90 6.5.2.3), or None where no
    /// declaration of it is visible.
    pub fn tag_of(&self, name: &[u8]) -> Option<Tag>
        ensures { result ≡ spec.tag_of (view_state self.now) name.now }
    {
        let entry = self.scopes.names.visible_tag(name)?;
        Some(entry.tag)
    }

    /// What a tag names by a declaration in the scope that is read.
    pub fn tag_here(&self, name: &[u8]) -> Option<Tag>
        ensures { result ≡ spec.tag_here (view_state self.now) name.now }
    {
        let entry = self.scopes.names.visible_tag(name)?;
        if entry.depth == self.scopes.names.depth() {
            Some(entry.tag)
        } else {
            None
        }
    }

    /// A name stands for this from here on.
    pub fn enter(&mut self, name: &'a [u8], entity: Entity) -> Result<(), AllocError>
        ensures { OnOk result (view_state self.new ≡ spec.enter name.now (view_entity entity) (view_state self.old)) }
    {
        let place = word_of(self.scopes.entities.len())?;
        self.scopes.names.declare(name, place)?;
        self.scopes.entities.push(entity)?;
        Ok(())
    }

    /// Declares a tag in the scope that is read: it names this up to the scope's end (C90 6.1.2.1).
    pub fn enter_tag(&mut self, name: &'a [u8], tag: Tag) -> Result<(), AllocError>
        ensures { OnOk result (view_state self.new ≡ spec.enter_tag name.now tag (view_state self.old)) }
    {
        self.scopes.names.declare_tag(name, tag)?;
        Ok(())
    }

    /// What is declared at a place is another from here on, in its own scope.
    pub fn put_entity(&mut self, place: u32, entity: Entity)
        ensures { view_state self.new ≡ spec.put_entity place (view_entity entity) (view_state self.old) }
    {
        put(&mut self.scopes.entities, place, entity);
    }

    /// Enters a scope inside the one that is read.
    pub fn one_deeper(&mut self) -> Result<(), AllocError>
        ensures { OnOk result (view_state self.new ≡ spec.one_deeper (view_state self.old)) }
    {
        self.scopes.names.enter()?;
        Ok(())
    }

    /// Leaves a scope: its names are gone, and what they hid is visible again.
    pub fn leave_scope(&mut self)
        ensures { view_state self.new ≡ spec.leave_scope (view_state self.old) }
    {
        self.scopes.names.leave();
    }

    /// These parameters, with the names and tags of the scope that is read.
    pub fn bindings_here(
        &self,
        alloc: Global,
        parameters: Vec<Parameter<'a>>,
    ) -> Result<Bindings<'a>, AllocError>
        ensures { IfOk result (λ b. view_bindings b ≡ bindings_in (view_parameters parameters.entry.items) (view_state self.now)) }
    {
        let ordinary = self.scopes.names.names_here(alloc)?;
        let tags = self.scopes.names.tags_here(alloc)?;
        Ok(Bindings {
            parameters,
            ordinary,
            tags,
        })
    }

    /// The names and tags of a parameter list are declared in the scope that is read.
    pub fn declare_again(&mut self, bindings: &Bindings<'a>) -> Result<(), AllocError>
        ensures { OnOk result (view_state self.new ≡ spec.with_scopes (declared_again (view_bindings bindings.now)) (view_state self.old)) }
    {
        declare_names(&mut self.scopes.names, &bindings.ordinary)?;
        declare_tags(&mut self.scopes.names, &bindings.tags)?;
        Ok(())
    }
}

// These names are declared in the scope that is read.
fn declare_names<'a>(
    names: &mut VisibleNames<'a>,
    ordinary: &[(&'a [u8], u32)],
) -> Result<(), AllocError>
    ensures { OnOk result (names.new ≡ names_again (found_names ordinary.now) names.old) }
{
    for entry in ordinary {
        names.declare(entry.0, entry.1)?;
    }
    Ok(())
}

// These tags are declared in the scope that is read.
fn declare_tags<'a>(
    names: &mut VisibleNames<'a>,
    tags: &[(&'a [u8], Tag)],
) -> Result<(), AllocError>
    ensures { OnOk result (names.new ≡ tags_again (found_names tags.now) names.old) }
{
    for entry in tags {
        names.declare_tag(entry.0, entry.1)?;
    }
    Ok(())
}
