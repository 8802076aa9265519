//! Types, names with linkage and what is made, as the state knows them.

ghost use Rattle.std.specs.Prelude.{◌≡◌, ◌↔◌, ◌≤◌, ◌^◌, true, Some, map, length, option_map, slice_get, IsOk, IsTrue, OnOk, OnErr, IfOk};
ghost use Rattle.std.specs.Option.{option_copied};
ghost use Rattle.pw_check_rules.specs.States as spec;
ghost use Rattle.pw_check_rules.specs.Leaves as leaves;
ghost use Rattle.pw_check_rules.specs.Functions.{add_function};
ghost use Rattle.pw_check_rules.specs.Linkage as linkage;
ghost use Rattle.pw_check_state.specs.Changes.{with_type, with_items};
ghost use Rattle.pw_check_names.specs.EntityViews.{view_linked, view_hidden};
ghost use Rattle.pw_check_state.specs.StateViews.{view_state};
ghost use Rattle.pw_types.specs.Records.{Follows, declared, defined};
ghost use Rattle.pw_types.specs.Views.{view_content, view_qtype, view_record};
ghost use Rattle.pw_typed.specs.Views.{view_function, view_placed};

use crate::places::put;
use crate::state::State;
use pw_check_names::{HiddenObject, LinkedName};
use pw_check_rules::Slot;
use pw_typed::{TFunction, TItem};
use pw_types::{Content, QType, RecordKind, RecordType, Types};
use pw_value::words::word_of;
use std::alloc::AllocError;

#[tactic(auto, unfolding(crate::specs::StateViews::view_state), using(crate::proofs::PlaceLemmas::map_push, crate::proofs::PlaceLemmas::length_map, crate::proofs::PlaceLemmas::map_put_at))]
impl<'a> State<'a> {
    /// The structures and unions of the module so far, by their numbers.
    pub fn records(&self) -> &Types
        ensures { result.now ≡ spec.records_in (view_state self.now) }
    {
        &self.types.records
    }

    /// Whether the members of a structure or union were begun.
    pub fn is_opened(&self, number: u32) -> bool
        ensures { result ≡ leaves.is_opened (view_state self.now) number }
    {
        match self.types.opened.get(number as usize) {
            Some(opened) => *opened,
            None => false,
        }
    }

    /// A structure or union more, which is not defined yet; its number is how many there were.
    pub fn add_record(&mut self, kind: RecordKind) -> Result<u32, AllocError>
        ensures number { IfOk result (λ n. n ≡ length (spec.records_in (view_state self.old))) }
        ensures state { OnOk result (view_state self.new ≡ spec.add_record (declared kind) (view_state self.old)) }
    {
        let number = self.types.records.declare(kind)?;
        self.types.opened.push(false)?;
        Ok(number)
    }

    /// The members of a structure or union are begun.
    pub fn open_record(&mut self, number: u32)
        ensures { view_state self.new ≡ leaves.open_record number (view_state self.old) }
    {
        put(&mut self.types.opened, number, true);
    }

    /// Defines a structure or union of this kind. One that is defined already, or of another kind, no rule lets come:
    /// it answers want of memory.
    #[tactic(auto, unfolding(crate::specs::StateViews::view_state), using(crate::proofs::RecordLemmas::kind_found, crate::proofs::RecordLemmas::kind_is, crate::proofs::RecordLemmas::defined_put))]
    pub fn define_record(
        &mut self,
        number: u32,
        kind: RecordKind,
        content: Content,
    ) -> Result<(), AllocError>
        requires follows { Follows (spec.records_in (view_state self.old)) kind (view_content content) }
        ensures state { OnOk result (view_state self.new ≡ spec.put_record number (defined kind (view_content content)) (view_state self.old)) }
        ensures defined { slice_get (spec.records_in (view_state self.old)) number ≡ Some (declared kind) → IsOk result }
    {
        if !is_undefined(&self.types.records, number, kind) {
            return Err(AllocError);
        }
        self.types.records.define(number, content);
        Ok(())
    }

    /// The place of a name among those with linkage.
    pub fn place_of_linked(&self, name: &[u8]) -> Option<u32>
        ensures { result ≡ spec.place_of_linked (view_state self.now) name.now }
    {
        self.types.linked.position(name)
    }

    /// The names with linkage so far, in the order of their first declarations.
    pub fn linked(&self) -> &[LinkedName<'a>]
        ensures { map view_linked result.now ≡ spec.linked_in (view_state self.now) }
    {
        self.types.linked.items()
    }

    /// A name with linkage by its place.
    pub fn linked_at(&self, place: u32) -> Option<&LinkedName<'a>>
        ensures { option_map view_linked (option_copied result) ≡ spec.linked_at (view_state self.now) place }
    {
        self.types.linked.get(place)
    }

    /// A name with linkage more.
    pub fn add_linked(&mut self, linked: LinkedName<'a>) -> Result<(), AllocError>
        ensures { OnOk result (view_state self.new ≡ spec.add_linked (view_linked linked.entry) (view_state self.old)) }
    {
        self.types.linked.push(linked)?;
        Ok(())
    }

    /// The type of a name with linkage is this from here on.
    pub fn set_linked_type(&mut self, place: u32, ty: QType)
        ensures { view_state self.new ≡ with_type place (view_qtype ty) (view_state self.old) }
    {
        self.types.linked.set_type(place, ty);
    }

    /// A name with linkage is tentatively defined.
    pub fn set_tentative(&mut self, place: u32)
        ensures { view_state self.new ≡ linkage.change_linked place (λ l. record l { tentative = true }) (view_state self.old) }
    {
        self.types.linked.set_tentative(place);
    }

    /// Notes that the name with linkage at a place is defined.
    pub fn set_defined(&mut self, place: u32)
        ensures { view_state self.new ≡ linkage.change_linked place (λ l. record l { defined = true }) (view_state self.old) }
    {
        self.types.linked.set_defined(place);
    }

    /// The type and the first bytes of a name with linkage are these from here on.
    pub fn set_linked_items(&mut self, place: u32, ty: QType, items: Vec<(u32, TItem)>)
        ensures { view_state self.new ≡ with_items place (view_qtype ty) (map view_placed items.items) (view_state self.old) }
    {
        self.types.linked.set_items(place, ty, items);
    }

    /// The number of the next hidden object. What 32 bits cannot count is want of memory.
    pub fn next_hidden(&self) -> Result<u32, AllocError>
        ensures number { IfOk result (λ n. n ≡ spec.next_hidden (view_state self.now)) }
        ensures wants { OnErr result (2 ^ 32 ≤ spec.next_hidden (view_state self.now)) }
    {
        Ok(word_of(self.made.hidden.len())?)
    }

    /// A hidden object more, with its slot.
    pub fn add_hidden(&mut self, object: HiddenObject) -> Result<(), AllocError>
        ensures { OnOk result (view_state self.new ≡ spec.add_hidden (view_hidden object) (view_state self.old)) }
    {
        let number = self.next_hidden()?;
        self.made.slots.push(Slot::Hidden(number))?;
        self.made.hidden.push(object)?;
        Ok(())
    }

    /// Replaces the hidden object of a number: a string's, or a static local's. A number past the end changes
    /// nothing.
    pub fn put_hidden(&mut self, number: u32, object: HiddenObject)
        ensures { view_state self.new ≡ spec.put_hidden number (view_hidden object) (view_state self.old) }
    {
        put(&mut self.made.hidden, number, object);
    }

    /// An object of static lifetime more.
    pub fn add_slot(&mut self, slot: Slot) -> Result<(), AllocError>
        ensures { OnOk result (view_state self.new ≡ spec.add_slot slot (view_state self.old)) }
    {
        self.made.slots.push(slot)?;
        Ok(())
    }

    /// Puts a checked function behind those of the module so far.
    pub fn add_function(&mut self, function: TFunction) -> Result<(), AllocError>
        ensures { OnOk result (view_state self.new ≡ add_function (view_function function) (view_state self.old)) }
    {
        self.made.functions.push(function)?;
        Ok(())
    }

    /// Whether strings are objects here.
    pub fn is_counting(&self) -> bool
        ensures { result ≡ (view_state self.now).made.counting }
    {
        self.made.counting
    }

    /// Whether strings are objects from here on.
    pub fn set_counting(&mut self, counting: bool)
        ensures { view_state self.new ≡ spec.with_made (λ m. record m { counting = counting }) (view_state self.old) }
    {
        self.made.counting = counting;
    }
}

// Whether this is a structure or union of the kind that is not defined yet.
fn is_undefined(records: &Types, number: u32, kind: RecordKind) -> bool
    ensures { IsTrue result ↔ slice_get records.now number ≡ Some (declared kind) }
{
    match records.record(number) {
        Some(known) => is_declared(known, kind),
        None => false,
    }
}

// Whether a structure or union is of the kind and not defined.
#[tactic(auto, using(crate::proofs::RecordLemmas::declared_shown, crate::proofs::RecordLemmas::declared_open, crate::proofs::RecordLemmas::declared_kind))]
fn is_declared(known: &RecordType, kind: RecordKind) -> bool
    ensures { IsTrue result ↔ view_record known.now ≡ declared kind }
{
    known.content.is_none() && known.kind == kind
}
