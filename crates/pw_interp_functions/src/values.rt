//! Values put into locals: of expressions, and the bytes of hidden objects (ISO C90 6.5.7).

ghost use Rattle.std.specs.Prelude.{◌≡◌, OnOk};
ghost use Rattle.pw_value.specs.Objects.{object_at, written};
ghost use Rattle.pw_cmean.specs.Execution as execution;
ghost use Rattle.pw_interp_state.specs.Shown.{view_state};
ghost use Rattle.pw_interp_calls.specs.Answers.{Answers};
ghost use Rattle.pw_interp_calls.specs.Views.{view_env};
ghost use Rattle.pw_interp_functions.specs.Copies as spec;
ghost use Rattle.pw_cmean.specs.Evaluation.{site};

use pw_interp_acts::{local_place, put, symbol_place};
use pw_interp_calls::{Ending, Env, Stop};
use pw_interp_state::{Objects, Purpose, State};
use pw_typed::Symbol;
use pw_value::{Pointer, Value};
use std::alloc::{AllocError, Global};

/// Puts a value into a local, which may be const, at the node of a token.
pub fn set_local<'a>(
    alloc: Global,
    env: &Env<'a>,
    state: &mut State,
    token: usize,
    local: u32,
    value: Value,
) -> Result<(), Stop<'a>>
    ensures { Answers (λ done. tt) (view_env env.now).world (execution.set_local (site (view_env env.now) token) local value (view_env env.now)) (view_state state.old) result (view_state state.new) }
{
    match env.locals.get(local as usize) {
        Some(declared) => {
            let place = local_place(env, local)?;
            let ty = &declared.ty.ty;
            put(
                alloc,
                env,
                state,
                Purpose::Initialising,
                token,
                ty,
                place,
                value,
            )
        }
        None => Err(Stop::Ended(Ending::Wrong)),
    }
}

/// The number of the object into which a place points, and the offset in it.
fn object_of(place: Value) -> Option<(u128, u32)>
    ensures { result ≡ spec.object_of place }
{
    match place {
        Value::At(Pointer::Object(number, offset)) => Some((number, offset)),
        _ => None,
    }
}

/// The object at the one place; and that at the other, with the offset in it.
fn ends_of(source: Value, place: Value) -> Option<(u128, u128, u32)>
    ensures { result ≡ spec.ends (spec.object_of source) (spec.object_of place) }
{
    let (from, _) = object_of(source)?;
    let (to, offset) = object_of(place)?;
    Some((from, to, offset))
}

/// Writes all bytes of an object into another from an offset on.
fn copy_bytes(
    alloc: Global,
    objects: &mut Objects,
    from: u128,
    to: u128,
    offset: u32,
) -> Result<(), AllocError>
    ensures { OnOk result (objects.new ≡ written to offset (object_at objects.old from).bytes objects.old) }
{
    let bytes = Vec::from_slice(alloc, objects.bytes(from))?;
    objects.write(to, offset, &bytes);
    Ok(())
}

/// Writes all bytes of the object at the one place to the other.
fn copy_all<'a>(
    alloc: Global,
    env: &Env<'a>,
    state: &mut State,
    source: Value,
    place: Value,
) -> Result<(), Stop<'a>>
    ensures { Answers (λ done. tt) (view_env env.now).world (spec.copying source place) (view_state state.old) result (view_state state.new) }
{
    match ends_of(source, place) {
        Some((from, to, offset)) => {
            copy_bytes(alloc, &mut state.objects, from, to, offset)?;
            Ok(())
        }
        None => Err(Stop::Ended(Ending::Wrong)),
    }
}

/// Initialises a local with the bytes of a hidden object.
pub fn initialise_bytes<'a>(
    alloc: Global,
    env: &Env<'a>,
    state: &mut State,
    local: u32,
    hidden: u32,
) -> Result<(), Stop<'a>>
    ensures { Answers (λ done. tt) (view_env env.now).world (spec.by_bytes local hidden (view_env env.now)) (view_state state.old) result (view_state state.new) }
{
    let source = symbol_place(alloc, env, &Symbol::Hidden(hidden))?;
    let place = local_place(env, local)?;
    copy_all(alloc, env, state, source, place)
}
