//! Where the functions of modules begin.

ghost use Rattle.std.specs.Prelude.{◌≡◌, ◌-◌, ◌<◌, ◌∷◌, ℕ, List, IfOk, false, length, slice_index_or};
ghost use Rattle.std.specs.List.{AllByRecursion};
ghost use Rattle.pw_image.specs.declared.image.Function.{Function as FunctionValue};
ghost use Rattle.pw_where.specs.Calls.{count_of, of_modules, entries_of, marked, text_end, Tells};

use pw_image::Function;
use pw_object::Object;
use pw_value::limits::{TEXT_START, WORD_LIMIT};
use pw_value::program_names::{StartName, is_allowed};
use std::alloc::{AllocError, Global};

/// How far the addresses of a text go.
const TEXT_END: usize = TEXT_START as usize + 4 * WORD_LIMIT as usize;

/// How many functions of a map of so many stand behind those of the modules.
fn count_behind(objects: &[Object], functions: usize) -> usize
    ensures { result ≡ functions - count_of objects.now }
{
    let mut left = functions;
    for object in objects {
        left = left.saturating_sub(object.functions.len());
    }
    left
}

/// The functions of a map that modules define.
pub(crate) fn of_modules<'a>(objects: &[Object], functions: &'a [Function]) -> &'a [Function]
    ensures { result.now ≡ of_modules objects.now functions.now }
{
    let behind = count_behind(objects, functions.len());
    functions.split_at(functions.len() - behind).0
}

/// Marks where a function begins, if it is another than `$start`.
fn mark(table: &mut Vec<bool>, function: &Function)
    requires { function.now.address < length table.old.items }
    ensures marks { (rest : List FunctionValue) → marked table.new.items (entries_of rest) ≡ marked table.old.items (entries_of (function.now ∷ rest)) }
    ensures length { length table.new.items ≡ length table.old.items }
{
    let is_called = is_allowed(StartName::Refused, &function.name);
    if is_called {
        table[function.address as usize] = true;
    }
}

/// Marks where functions begin.
fn mark_all(table: &mut Vec<bool>, functions: &[Function])
    requires length { length table.old.items ≡ text_end }
    requires within { AllByRecursion (λ f. f.address < text_end) functions.now }
    ensures { table.new.items ≡ marked table.old.items (entries_of functions.now) }
{
    let mut rest = functions;
    while let [function, after @ ..] = rest {
        mark(table, function);
        rest = after;
    }
}

/// A table of so many places with no marks.
fn unmarked(alloc: Global, places: usize) -> Result<Vec<bool>, AllocError>
    ensures none { IfOk result (λ table. (a : ℕ) → slice_index_or table.items a false ≡ false) }
    ensures length { IfOk result (λ table. length table.items ≡ places) }
{
    let table = vec![in alloc; false; places]?;
    Ok(table)
}

/// A table that tells at which addresses functions begin.
pub(crate) fn table_of(alloc: Global, functions: &[Function]) -> Result<Vec<bool>, AllocError>
    requires { AllByRecursion (λ f. f.address < text_end) functions.now }
    ensures { IfOk result (λ table. Tells table.items (entries_of functions.now)) }
{
    let mut table = unmarked(alloc, TEXT_END)?;
    mark_all(&mut table, functions);
    Ok(table)
}
