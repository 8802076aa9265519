//! The numbers of functions, by which pointers to them are told apart.

ghost use Rattle.std.specs.Prelude.{◌≡◌, ◌^◌, ◌≤◌, ◌∷◌, map, count_by, IfOk, MatchResult};
ghost use Rattle.pw_value.specs.Names.{is_before};
ghost use Rattle.pw_interp_world.specs.Names.{number_among, numbers_of};
ghost use Rattle.pw_interp_world.specs.Views.{view_callables};

use crate::program::Callable;
use pw_value::program_names::START;
use pw_value::words::word_of;
use std::alloc::{AllocError, Global};
use std::cmp::Ordering;

/// Whether a name stands before another in byte order.
fn stands_before(a: &[u8], b: &[u8]) -> bool
    ensures { result ≡ is_before a.now b.now }
{
    a.cmp(b) == Ordering::Less
}

/// A function's number: how many of all functions' names stand before its own, that of `$start` included.
fn number_of(callables: &[Callable], name: &[u8]) -> usize
    ensures { result ≡ number_among (view_callables callables.now) name.now }
{
    let mut count = usize::from(stands_before(START, name));
    for other in callables {
        if stands_before(other.name.as_bytes(), name) {
            count += 1;
        }
    }
    count
}

/// A function's number as a word. There is no memory for one that no word holds, and for no other.
fn number_word(callables: &[Callable], name: &[u8]) -> Result<u32, AllocError>
    ensures { MatchResult result (λ number. number ≡ number_among (view_callables callables.now) name.now) (λ _. 2 ^ 32 ≤ number_among (view_callables callables.now) name.now) }
{
    word_of(number_of(callables, name))
}

/// The numbers of a program's functions, in their order: pointers to functions are told apart by them. A number past 32
/// bits is told as want of memory.
pub fn function_numbers(alloc: Global, callables: &[Callable]) -> Result<Vec<u32>, AllocError>
    ensures { IfOk result (λ v. v.items ≡ numbers_of (view_callables callables.now)) }
{
    let mut numbers = Vec::new(alloc);
    for callable in callables {
        let number = number_word(callables, callable.name.as_bytes())?;
        numbers.push(number)?;
    }
    Ok(numbers)
}
