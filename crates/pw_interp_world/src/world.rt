//! A program with the tables of its names.

ghost use Rattle.std.specs.Prelude.{◌≡◌, map, option_and_then, slice_get, IfOk};
ghost use Rattle.pw_cmean.specs.Worlds as worlds;
ghost use Rattle.pw_interp_world.specs.Names.{numbers_of};
ghost use Rattle.pw_interp_world.specs.Views.{view_program, view_callables};

use crate::lists::{listed, names_of};
use crate::lookups::{denoted, place_of_number};
use crate::numbers::function_numbers;
use crate::program::{Callable, Part};
use pw_check_names::NameList;
use pw_value::{Name, Pointer};
use std::alloc::{AllocError, Global};

/// A program with the tables of its names: of its functions, in order and with their numbers, and of its objects of
/// static lifetime.
#[derive(Drop)]
pub struct World<'a> {
    pub parts: &'a [Part<'a>],
    functions: NameList<'a>,
    globals: NameList<'a>,
    numbers: Vec<u32>,
    ghost named: { functions ≡ map (λ f. f.name) (worlds.functions_of (view_program parts.now)) },
    ghost objects: { globals ≡ worlds.global_names (view_program parts.now) },
    ghost numbered: { numbers.items ≡ numbers_of (worlds.functions_of (view_program parts.now)) },
}

impl<'a> World<'a> {
    /// The program of these modules, of which these are the functions and the names of the objects.
    pub fn new(
        alloc: Global,
        parts: &'a [Part<'a>],
        callables: &'a [Callable<'a>],
        globals: &'a [Name],
    ) -> Result<World<'a>, AllocError>
        requires functions { view_callables callables.now ≡ worlds.functions_of (view_program parts.now) }
        requires objects { globals.now ≡ worlds.global_names (view_program parts.now) }
        ensures { IfOk result (λ world. world.parts.now ≡ parts.now) }
    {
        let functions = names_of(alloc, callables)?;
        let globals = listed(alloc, globals)?;
        let numbers = function_numbers(alloc, callables)?;
        Ok(World {
            parts,
            functions,
            globals,
            numbers,
        })
    }

    /// The pointer to what a full name denotes, at an offset: an object, or else a function.
    pub fn pointer_to(&self, name: &[u8], offset: u32) -> Option<Pointer>
        ensures { result ≡ worlds.pointer_to (view_program self.now.parts.now) name.now offset }
    {
        denoted(&self.globals, &self.functions, &self.numbers, name, offset)
    }

    /// The place of the function of a full name.
    pub fn place_named(&self, name: &[u8]) -> Option<u32>
        ensures { option_and_then (slice_get (worlds.functions_of (view_program self.now.parts.now))) result ≡ worlds.function_named (view_program self.now.parts.now) name.now }
    {
        self.functions.position(name)
    }

    /// The place, in the list of the program's functions, of the one that a pointer's number stands for, or None
    /// where no function has it.
    pub fn place_numbered(&self, number: u32) -> Option<usize>
        ensures { option_and_then (slice_get (worlds.functions_of (view_program self.now.parts.now))) result ≡ worlds.function_at (view_program self.now.parts.now) number }
    {
        place_of_number(&self.numbers, number)
    }
}
