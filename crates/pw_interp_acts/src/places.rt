//! The places of names.

ghost use Rattle.std.specs.Prelude.{◌≡◌, ◌≢◌, option_map, option_and_then, slice_get, IfErr};
ghost use Rattle.pw_typed.specs.Views.{view_symbol};
ghost use Rattle.pw_cmean.specs.Acts.{need};
ghost use Rattle.pw_cmean.specs.Evaluation as meaning;
ghost use Rattle.pw_cmean.specs.Worlds.{full_name, function_named};
ghost use Rattle.pw_interp_state.specs.Shown.{Shown};
ghost use Rattle.pw_interp_calls.specs.Answers.{Answers};
ghost use Rattle.pw_interp_calls.specs.Functions.{callable_of};
ghost use Rattle.pw_interp_calls.specs.Views.{view_env};
ghost use Rattle.pw_interp_acts.specs.Results as spec;

use pw_interp_calls::{Ending, Env, Stop};
use pw_interp_world::Body;
use pw_lower_forms::full_name;
use pw_typed::Symbol;
use pw_value::{Pointer, Value};
use std::alloc::Global;

/// The value that must be there: in an accepted program it is.
fn need<'a, T>(value: Option<T>) -> Result<T, Stop<'a>>
    ensures { result ≡ spec.needed value }
{
    match value {
        Some(there) => Ok(there),
        None => Err(Stop::Ended(Ending::Wrong)),
    }
}

/// The place of a local that has an object.
fn object_place(numbers: &[Option<u128>], local: u32) -> Option<Value>
    ensures { result ≡ option_map (λ number. Value.At (Pointer.Object number 0)) (option_and_then (λ n. n) (slice_get numbers.now local)) }
{
    match numbers.get(local as usize) {
        Some(Some(number)) => Some(Value::At(Pointer::Object(*number, 0))),
        Some(None) | None => None,
    }
}

/// The place of a local: the first byte of its object, or the end of the run as wrong where none is in scope, which
/// no accepted program does.
pub fn local_place<'a>(env: &Env<'a>, local: u32) -> Result<Value, Stop<'a>>
    ensures answers { (s : Shown) → Answers (λ x. x) (view_env env.now).world (meaning.local_place (view_env env.now) local) s result s }
    ensures no_memory { IfErr result (λ stop. stop ≢ Stop.NoMemory) }
{
    need(object_place(&env.numbers, local))
}

/// The place to which a pointer points.
fn pointed_place(pointer: Option<Pointer>) -> Option<Value>
    ensures { result ≡ option_map Value.At pointer }
{
    Some(Value::At(pointer?))
}

/// The place of an object of static lifetime, or the function.
pub fn symbol_place<'a>(alloc: Global, env: &Env<'a>, symbol: &Symbol) -> Result<Value, Stop<'a>>
    ensures { (s : Shown) → Answers (λ x. x) (view_env env.now).world (meaning.symbol_place (view_env env.now) (view_symbol symbol.now)) s result s }
{
    let name = full_name(alloc, env.home.name, symbol)?;
    need(pointed_place(env.world.pointer_to(name.as_bytes())))
}

/// The function that a symbol names.
pub fn function_of<'a>(alloc: Global, env: &Env<'a>, symbol: &Symbol) -> Result<Body<'a>, Stop<'a>>
    ensures { (s : Shown) → Answers callable_of (view_env env.now).world (need (function_named (view_env env.now).world.program (full_name env.now.home.name.now (view_symbol symbol.now)))) s result s }
{
    let name = full_name(alloc, env.home.name, symbol)?;
    need(env.world.function_named(name.as_bytes()))
}
