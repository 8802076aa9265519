//! The names with linkage.

ghost use Rattle.std.specs.Prelude.{◌≡◌, [], ◌∷◌, ◌++◌, true, map, position, slice_get, option_map, OnOk};
ghost use Rattle.std.specs.Option.{option_copied};
ghost use Rattle.std.specs.Str.{bytes_eq};
ghost use Rattle.pw_types.specs.Views.{view_qtype};
ghost use Rattle.pw_typed.specs.Views.{view_placed};
ghost use Rattle.pw_check_names.specs.EntityViews.{names_linked};

use crate::entity::LinkedName;
use crate::names::NameList;
use pw_typed::TItem;
use pw_types::QType;
use std::alloc::{AllocError, Global};

/// The names with linkage in the order of their first declarations, with the places at which they stand.
#[derive(Drop)]
pub struct LinkedNames<'a> {
    items: Vec<LinkedName<'a>>,
    names: NameList<'a>,
    ghost named: { names ≡ names_linked items.items },
}

impl<'a> LinkedNames<'a> {
    ghost use Rattle.pw_check_names.specs.LinkedViews.{linked_names, changed_at};
    ghost use Rattle.pw_check_names.specs.EntityViews.{view_linked};

    /// An empty list.
    pub fn new(alloc: Global) -> LinkedNames<'a>
        ensures { linked_names result ≡ [] }
    {
        LinkedNames {
            items: Vec::new(alloc),
            names: NameList::new(alloc),
        }
    }

    /// The names in order.
    pub fn items(&self) -> &[LinkedName<'a>]
        ensures { map view_linked result.now ≡ linked_names self.now }
    {
        self.items.as_slice()
    }

    /// The name with linkage at a place, where there is one.
    pub fn get(&self, place: u32) -> Option<&LinkedName<'a>>
        ensures { option_map view_linked (option_copied result) ≡ slice_get (linked_names self.now) place }
    {
        self.items.get(place as usize)
    }

    /// The first place that has a name, where there is one.
    pub fn position(&self, name: &[u8]) -> Option<u32>
        ensures { result ≡ position (λ l. bytes_eq l.name name.now) (linked_names self.now) }
    {
        self.names.position(name)
    }

    /// Adds a name with linkage at the end.
    pub fn push(&mut self, linked: LinkedName<'a>) -> Result<(), AllocError>
        ensures { OnOk result (linked_names self.new ≡ linked_names self.old ++ view_linked linked.entry ∷ []) }
    {
        self.items.reserve(1)?;
        self.names.push(linked.name)?;
        self.items.push(linked)?;
        Ok(())
    }

    /// Gives the name at a place another type, as a later declaration makes it (C90 6.1.2.6). A place past the end
    /// changes nothing.
    #[tactic(auto, using(crate::proofs::ChangeLemmas::map_same, crate::proofs::ChangeLemmas::map_changed, crate::proofs::ChangeLemmas::map_past))]
    pub fn set_type(&mut self, place: u32, ty: QType)
        ensures { linked_names self.new ≡ changed_at place (λ l. record l { ty = view_qtype ty }) (linked_names self.old) }
    {
        if let Some(linked) = self.items.get_mut(place as usize) {
            linked.ty = ty;
        }
    }

    /// A name is tentatively defined.
    #[tactic(auto, using(crate::proofs::ChangeLemmas::map_same, crate::proofs::ChangeLemmas::map_changed, crate::proofs::ChangeLemmas::map_past))]
    pub fn set_tentative(&mut self, place: u32)
        ensures { linked_names self.new ≡ changed_at place (λ l. record l { tentative = true }) (linked_names self.old) }
    {
        if let Some(linked) = self.items.get_mut(place as usize) {
            linked.tentative = true;
        }
    }

    /// Notes that the name at a place has its definition (C90 6.7). A place past the end changes nothing.
    #[tactic(auto, using(crate::proofs::ChangeLemmas::map_same, crate::proofs::ChangeLemmas::map_changed, crate::proofs::ChangeLemmas::map_past))]
    pub fn set_defined(&mut self, place: u32)
        ensures { linked_names self.new ≡ changed_at place (λ l. record l { defined = true }) (linked_names self.old) }
    {
        if let Some(linked) = self.items.get_mut(place as usize) {
            linked.defined = true;
        }
    }

    /// The type and the first bytes of a name are these from here on.
    #[tactic(auto, using(crate::proofs::ChangeLemmas::map_same, crate::proofs::ChangeLemmas::map_changed, crate::proofs::ChangeLemmas::map_past))]
    pub fn set_items(&mut self, place: u32, ty: QType, items: Vec<(u32, TItem)>)
        ensures { linked_names self.new ≡ changed_at place (λ l. record l { ty = view_qtype ty; items = map view_placed items.items }) (linked_names self.old) }
    {
        if let Some(linked) = self.items.get_mut(place as usize) {
            linked.ty = ty;
            linked.items = items;
        }
    }

    /// The names in order, by value.
    pub fn into_items(self) -> Vec<LinkedName<'a>>
        ensures { map view_linked result.items ≡ linked_names self.entry }
    {
        let LinkedNames { items, names: _ } = self;
        items
    }
}
