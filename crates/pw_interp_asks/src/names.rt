//! Names and strings: the places that they denote and their values.

ghost use Rattle.std.specs.Prelude.{◌≡◌, ◌≢◌, ℕ, IfErr, false};
ghost use Rattle.pw_typed.specs.Views.{view_symbol};
ghost use Rattle.pw_types.specs.TypeTrees as types;
ghost use Rattle.pw_types.specs.TypedTrees as tree;
ghost use Rattle.pw_types.specs.Views.{view_qtype};
ghost use Rattle.pw_cmean.specs.Evaluation as meaning;
ghost use Rattle.pw_interp_state.specs.Shown.{Shown, view_state};
ghost use Rattle.pw_interp_calls.specs.Evaluates.{Evaluates, Locates};
ghost use Rattle.pw_interp_calls.specs.Views.{view_env};
ghost use Rattle.pw_interp_asks.specs.Groups.{denotes};

use pw_interp_acts::{local_place, symbol_place, value_at};
use pw_interp_calls::{Ending, Env, Stop};
use pw_interp_state::State;
use pw_typed::Symbol;
use pw_types::QType;
use pw_value::Value;
use std::alloc::Global;

/// The place of a string's object.
pub fn string_place<'a>(alloc: Global, env: &Env<'a>, number: u32) -> Result<Value, Stop<'a>>
    ensures { (bound token : ℕ) (ty : types.QType) (s : Shown) → Locates (view_env env.now) bound (tree.Node token ty (tree.Str number)) s result s }
{
    let symbol = Symbol::Hidden(number);
    symbol_place(alloc, env, &symbol)
}

/// The place that the name of a local denotes as an lvalue (C90 6.3.1): the first byte of its object.
pub fn own_place<'a>(env: &Env<'a>, local: u32) -> Result<Value, Stop<'a>>
    ensures locates { (bound token : ℕ) (ty : types.QType) (s : Shown) → Locates (view_env env.now) bound (tree.Node token ty (tree.Local local)) s result s }
    ensures no_memory { IfErr result (λ stop. stop ≢ Stop.NoMemory) }
{
    local_place(env, local)
}

/// The place of an object of static lifetime.
pub fn global_place<'a>(alloc: Global, env: &Env<'a>, symbol: &Symbol) -> Result<Value, Stop<'a>>
    ensures { (bound token : ℕ) (ty : types.QType) (s : Shown) → Locates (view_env env.now) bound (tree.Node token ty (tree.Global (view_symbol symbol.now))) s result s }
{
    symbol_place(alloc, env, symbol)
}

/// The place that the name of a function denotes, as a function designator (C90 6.3.1).
pub fn function_place<'a>(alloc: Global, env: &Env<'a>, symbol: &Symbol) -> Result<Value, Stop<'a>>
    ensures { (bound token : ℕ) (ty : types.QType) (s : Shown) → Locates (view_env env.now) bound (tree.Node token ty (tree.Function (view_symbol symbol.now))) s result s }
{
    symbol_place(alloc, env, symbol)
}

/// The value of a string's object.
pub fn string<'a>(
    alloc: Global,
    env: &Env<'a>,
    state: &State,
    token: usize,
    ty: &QType,
    number: u32,
) -> Result<Option<Value>, Stop<'a>>
    ensures { (bound : ℕ) → Evaluates (view_env env.now) bound (tree.Node token (view_qtype ty.now) (tree.Str number)) (view_state state.now) result (view_state state.now) }
{
    let place = string_place(alloc, env, number)?;
    value_at(env, state, token, ty, place)
}

/// The value of the name of a local (C90 6.3.1): what its object's bytes hold as this type. Where they hold none, the
/// run ends at the token, as an undefined operation.
#[inline(always)]
pub fn local<'a>(
    env: &Env<'a>,
    state: &State,
    token: usize,
    ty: &QType,
    local: u32,
) -> Result<Option<Value>, Stop<'a>>
    ensures evaluates { (bound : ℕ) → Evaluates (view_env env.now) bound (tree.Node token (view_qtype ty.now) (tree.Local local)) (view_state state.now) result (view_state state.now) }
    ensures no_memory { IfErr result (λ stop. stop ≢ Stop.NoMemory) }
{
    let place = own_place(env, local)?;
    value_at(env, state, token, ty, place)
}

/// The value of an object of static lifetime.
pub fn global<'a>(
    alloc: Global,
    env: &Env<'a>,
    state: &State,
    token: usize,
    ty: &QType,
    symbol: &Symbol,
) -> Result<Option<Value>, Stop<'a>>
    ensures { (bound : ℕ) → Evaluates (view_env env.now) bound (tree.Node token (view_qtype ty.now) (tree.Global (view_symbol symbol.now))) (view_state state.now) result (view_state state.now) }
{
    let place = global_place(alloc, env, symbol)?;
    value_at(env, state, token, ty, place)
}

/// The value of a function's name.
pub fn function<'a>(
    alloc: Global,
    env: &Env<'a>,
    state: &State,
    token: usize,
    ty: &QType,
    symbol: &Symbol,
) -> Result<Option<Value>, Stop<'a>>
    ensures { (bound : ℕ) → Evaluates (view_env env.now) bound (tree.Node token (view_qtype ty.now) (tree.Function (view_symbol symbol.now))) (view_state state.now) result (view_state state.now) }
{
    let place = function_place(alloc, env, symbol)?;
    value_at(env, state, token, ty, place)
}

/// What denotes no place is so in no accepted program.
pub fn no_place<'a>() -> Result<Value, Stop<'a>>
    ensures { (e : meaning.Env) (bound token : ℕ) (ty : types.QType) (form : tree.Form) (s : Shown) → denotes form ≡ false → Locates e bound (tree.Node token ty form) s result s }
{
    Err(Stop::Ended(Ending::Wrong))
}
