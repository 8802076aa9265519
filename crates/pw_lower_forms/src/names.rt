//! The names of objects and functions among all modules.

ghost use Rattle.std.specs.Prelude.{◌≡◌, ◌<◌, ◌≤◌, ◌++◌, ◌∷◌, [], IfOk, MatchResult};
ghost use Rattle.pw_typed.specs.Views.{view_symbol};
ghost use Rattle.pw_types.specs.FullNames as symbols;
ghost use Rattle.pw_types.specs.TypedTrees as tree;
ghost use Rattle.pw_value.specs.Limits.{name_limit};

use pw_typed::Symbol;
use pw_value::limits::NAME_LIMIT;
use pw_value::{Name, NoMemory, push_decimal};
use std::alloc::Global;

/// Whether so many bytes are within the limit on names. There is no memory for more, and for no fewer.
fn check_length(count: usize) -> Result<(), NoMemory>
    ensures { MatchResult result (λ _. count ≤ name_limit) (λ _. name_limit < count) }
{
    if count > NAME_LIMIT {
        return Err(NoMemory);
    }
    Ok(())
}

/// The name of an object or function among all modules: `x`, `m:x` or `m:.k`.
pub fn full_name(alloc: Global, home: &Name, symbol: &Symbol) -> Result<Name, NoMemory>
    ensures { IfOk result (λ name. name ≡ symbols.full_name home.now (view_symbol symbol.now)) }
{
    match symbol {
        Symbol::External(name) => name.copy(alloc),
        Symbol::Internal(name) => own_name(alloc, home, name.as_bytes()),
        Symbol::Hidden(number) => hidden_name(alloc, home, *number),
    }
}

/// The name `m:x` of a module's own `x`. There is no memory for one that passes the limit on names.
fn own_name(alloc: Global, home: &Name, name: &[u8]) -> Result<Name, NoMemory>
    ensures { IfOk result (λ full. full ≡ home.now ++ 58 ∷ name.now) }
{
    let mut bytes = Vec::from_slice(alloc, home.as_bytes())?;
    bytes.push(b':')?;
    bytes.extend_from_slice(name)?;
    check_length(bytes.len())?;
    Name::within(alloc, &bytes)
}

/// The name `m:.k` of a module's hidden object.
pub fn hidden_name(alloc: Global, home: &Name, number: u32) -> Result<Name, NoMemory>
    ensures { IfOk result (λ name. name ≡ symbols.full_name home.now (tree.Hidden number)) }
{
    let mut bytes = Vec::new(alloc);
    bytes.push(b'.')?;
    push_decimal(&mut bytes, u64::from(number))?;
    own_name(alloc, home, &bytes)
}
