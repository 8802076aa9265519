//! The members of a structure or union while they are gathered (C90 6.5.2.1).

ghost use Rattle.std.specs.Prelude.{◌≡◌, [], ◌∷◌, ◌++◌, length, OnOk};
ghost use Rattle.std.specs.List.{list_any};
ghost use Rattle.std.specs.Str.{bytes_eq};
ghost use Rattle.pw_check_records.specs.Parts.{names_of_members};
ghost use Rattle.pw_types.specs.Views.{view_qtype};
ghost use Rattle.pw_value.specs.Names.{IsNameLength};

use pw_check_state::NameList;
use pw_types::{Member, QType};
use pw_value::Name;
use std::alloc::{AllocError, Global};

/// The members of a structure or union while they are gathered, in order, with their names.
#[derive(Drop)]
pub struct MemberList<'a> {
    items: Vec<Member>,
    names: NameList<'a>,
    ghost named: { names ≡ names_of_members items.items },
}

impl<'a> MemberList<'a> {
    ghost use Rattle.pw_check_records.specs.Views.{view_member_list};
    ghost use Rattle.pw_types.specs.Views.{view_members};

    /// A structure or union without members yet.
    pub fn new(alloc: Global) -> MemberList<'a>
        ensures { view_member_list result ≡ [] }
    {
        MemberList {
            items: Vec::new(alloc),
            names: NameList::new(alloc),
        }
    }

    /// Whether one of the members has this name.
    pub fn contains(&self, name: &[u8]) -> bool
        ensures { result ≡ list_any (λ m. bytes_eq m.name name.now) (view_member_list self.now) }
    {
        self.names.contains(name)
    }

    /// A member more, whose name is as long as a name may be.
    pub fn push(&mut self, alloc: Global, name: &'a [u8], ty: QType) -> Result<(), AllocError>
        requires { IsNameLength (length name.now) }
        ensures { OnOk result (view_member_list self.new ≡ view_member_list self.old ++ record { name = name.now; ty = view_qtype ty } ∷ []) }
    {
        let own_name = Name::within(alloc, name)?;
        self.items.reserve(1)?;
        self.names.push(name)?;
        self.items.push(Member { name: own_name, ty })?;
        Ok(())
    }

    /// The members in order, by value.
    pub fn into_members(self) -> Vec<Member>
        ensures { view_members result.items ≡ view_member_list self.entry }
    {
        let MemberList { items, names: _ } = self;
        items
    }
}
