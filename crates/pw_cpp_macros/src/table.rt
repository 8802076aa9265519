//! The macros at a place of a text.

ghost use Rattle.std.specs.Prelude.{◌≡◌, ◌↔◌, [], IsTrue};
ghost use Rattle.std.specs.Option.{option_map};
ghost use Rattle.pw_cpp_macros.specs.Macros as spec;

use crate::definition::{Definition, Macro};
use crate::word::spelled;
use indexmap::IndexMap;
use pw_items::Items;
use pw_token::Token;
use std::alloc::Global;
use std::marker::Model;

/// The greatest count of macros at once.
pub const MACRO_LIMIT: usize = 4096;

/// The macros at a place of a text, each with its name, which stands in the text.
#[derive(Drop)]
pub struct Macros<'a> {
    table: IndexMap<&'a [u8], Macro>,
}

impl<'a> Model for Macros<'a> {
    ghost use Rattle.std.specs.Prelude.{ℕ, List, map};
    ghost use Rattle.pw_cpp_macros.specs.declared.definition.Macro.{Macro};

    ghost Value = { List (List ℕ × Macro) };

    ghost view = { λ inside. map (λ entry. (entry.0.now, entry.1)) inside.table.entries };
}

/// Why a definition adds no macro.
#[derive(Clone, Copy, Debug, PartialEq, Eq)]
pub enum MacroFault {
    /// Its name is a macro's that differs from it.
    Differs,
    /// There are `MACRO_LIMIT` macros.
    Full,
    /// There was no memory for the macro.
    NoMemory,
}

/// Whether two lists of tokens have the same spellings in the same order.
fn is_spelled_alike(text: &[u8], one: &[Token], other: &[Token]) -> bool
    ensures { result ≡ spec.is_spelled_alike text.now one.now other.now }
{
    let mut left = one;
    let mut right = other;
    while let [a, others @ ..] = left {
        let [b, behind @ ..] = right else {
            return false;
        };
        if spelled(text, *a) != spelled(text, *b) {
            return false;
        }
        left = others;
        right = behind;
    }
    right.is_empty()
}

fn has_parameters_alike(
    text: &[u8],
    one: &Option<Items<Token>>,
    other: &Option<Items<Token>>,
) -> bool
    ensures { result ≡ spec.has_parameters_alike text.now one.now other.now }
{
    match one {
        None => other.is_none(),
        Some(a) => match other {
            None => false,
            Some(b) => is_spelled_alike(text, a.as_slice(), b.as_slice()),
        },
    }
}

fn is_alike(text: &[u8], one: &Macro, other: &Macro) -> bool
    ensures { result ≡ spec.is_alike text.now one.now other.now }
{
    has_parameters_alike(text, &one.parameters, &other.parameters)
        && is_spelled_alike(
            text,
            one.replacement.as_slice(),
            other.replacement.as_slice(),
        )
}

impl<'a> Macros<'a> {
    /// An empty table of macros.
    pub fn new(alloc: Global) -> Self
        ensures { result ≡ [] }
    {
        Macros {
            table: IndexMap::new(alloc),
        }
    }

    /// What a name stands for, or None where it is no macro's.
    pub fn find(&self, name: &[u8]) -> Option<&Macro>
        ensures { option_map (λ found. found.now) result ≡ spec.find self.now name.now }
    {
        self.table.get(name)
    }

    /// Adds the macro of a definition, whose name is a piece of the text. One that is there already may be defined again alike.
    ///
    /// # Errors
    ///
    /// `Differs` where the name is a macro's that is not alike, `Full` where there is no room for another; no macro changes then.
    pub fn define(&mut self, text: &'a [u8], definition: Definition) -> Result<(), MacroFault>
        ensures { spec.Defines text.now definition self.old self.new result }
    {
        let name = spelled(text, definition.name);
        if let Some(old) = self.table.get(name) {
            if is_alike(text, old, &definition.meaning) {
                return Ok(());
            }
            return Err(MacroFault::Differs);
        }
        if self.table.len() >= MACRO_LIMIT {
            return Err(MacroFault::Full);
        }
        match self.table.insert(name, definition.meaning) {
            Ok(_) => Ok(()),
            Err(_) => Err(MacroFault::NoMemory),
        }
    }

    /// Takes a name's macro away, where there is one.
    pub fn undefine(&mut self, name: &[u8])
        ensures { self.new ≡ spec.without self.old name.now }
    {
        self.table.shift_remove(name);
    }
}
