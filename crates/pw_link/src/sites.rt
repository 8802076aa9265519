//! The addresses of a linked program: of its names, of its routines, and of the end of its stack.

ghost use Rattle.std.specs.Prelude.{◌≡◌, ◌++◌, ◌∷◌, [], ◌+◌, ℕ, List, map, IfOk, OnOk, slice_index_or};
ghost use Rattle.pw_link.specs.Layout.{function_site, global_site, address_in};
ghost use Rattle.pw_link.specs.Linking.{symbol_address};
ghost use Rattle.pw_link.specs.Views.{placed_view, standing_view, Tells, plain_sites};

use crate::data::Standing;
use crate::text::Placed;
use indexmap::IndexMap;
use pw_inst::Symbol;
use pw_value::Name;
use std::alloc::AllocError;

/// The addresses that go into words and data.
#[derive(Drop)]
pub(crate) struct Sites<'a> {
    /// Of each name, the address of the first that has it.
    pub names: IndexMap<&'a [u8], u32>,
    /// Of `$divs`, `$divu`, `$mul`, `$rems` and `$remu`.
    pub routines: Vec<u32>,
    pub stack_end: u32,
}

/// Adds a name with its address, unless the name is there.
fn add<'a>(
    names: &mut IndexMap<&'a [u8], u32>,
    name: &'a Name,
    address: u32,
) -> Result<(), AllocError>
    ensures { OnOk result ((sites : List (List ℕ × ℕ)) → Tells names.old.entries sites → Tells names.new.entries (sites ++ (name.now, address) ∷ [])) }
{
    let bytes = name.as_bytes();
    if names.get(bytes).is_none() {
        names.insert(bytes, address)?;
    }
    Ok(())
}

/// Adds the functions and routines.
pub(crate) fn add_text<'a>(
    names: &mut IndexMap<&'a [u8], u32>,
    text: &[Placed<'a>],
) -> Result<(), AllocError>
    ensures { OnOk result ((sites : List (List ℕ × ℕ)) → Tells names.old.entries sites → Tells names.new.entries (sites ++ map function_site (map placed_view text.now))) }
{
    for each in text {
        add(names, each.piece.name, each.address)?;
    }
    Ok(())
}

/// Adds the global objects of data that start at an address.
pub(crate) fn add_data<'a>(
    names: &mut IndexMap<&'a [u8], u32>,
    start: u32,
    objects: &[Standing<'a>],
) -> Result<(), AllocError>
    ensures { OnOk result ((sites : List (List ℕ × ℕ)) → Tells names.old.entries sites → Tells names.new.entries (sites ++ map (global_site start) (map standing_view objects.now))) }
{
    for each in objects {
        add(names, &each.global.name, start.wrapping_add(each.offset))?;
    }
    Ok(())
}

impl<'a> Sites<'a> {
    /// The address of a name, and 0 where nothing has it.
    pub fn address(&self, name: &[u8]) -> u32
        ensures { (sites : List (List ℕ × ℕ)) → Tells self.now.names.entries sites → result ≡ address_in sites name.now }
    {
        match self.names.get(name) {
            Some(address) => *address,
            None => 0,
        }
    }

    /// The address of a symbol of a function that stands at an address.
    pub fn symbol(&self, own: u32, symbol: &Symbol) -> u32
        ensures { (sites : List (List ℕ × ℕ)) → Tells self.now.names.entries sites → result ≡ symbol_address (plain_sites sites self.now) own symbol.now }
    {
        match symbol {
            Symbol::Named(name) => self.address(name.as_bytes()),
            Symbol::Word(k) => own.wrapping_add(k.wrapping_mul(4)),
            Symbol::StackLimit => self.stack_end,
            Symbol::Routine(k) => self.routine(*k),
        }
    }

    /// The address of the routine of a number, and 0 where there is none.
    fn routine(&self, k: u8) -> u32
        ensures { result ≡ slice_index_or self.now.routines.items k 0 }
    {
        match self.routines.get(k as usize) {
            Some(address) => *address,
            None => 0,
        }
    }
}
