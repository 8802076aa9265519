//! What a call calls (ISO C90 6.3.2.2).

ghost use Rattle.std.specs.Prelude.{◌≡◌, ℕ, false, IfOk, List, Some, option_map};
ghost use Rattle.std.specs.Str.{bytes_eq};
ghost use Rattle.pw_value.specs.declared.value.Value as value;
ghost use Rattle.pw_types.specs.Shapes.{shape_of};
ghost use Rattle.pw_types.specs.Views.{view_type};
ghost use Rattle.pw_cmean.specs.Acts as acts;
ghost use Rattle.pw_cmean.specs.Evaluation as meaning;
ghost use Rattle.pw_cmean.specs.SourceRun as runs;
ghost use Rattle.pw_interp_calls.specs.Endings.{told_stop};
ghost use Rattle.pw_interp_calls.specs.Functions.{callable_of};
ghost use Rattle.pw_interp_calls.specs.Views.{view_env};
ghost use Rattle.pw_interp_calls.specs.WorldViews.{view_world};
ghost use Rattle.pw_interp_state.specs.Shown.{Shown};
ghost use Rattle.pw_interp_todo.specs.Leading.{Continues};
ghost use Rattle.pw_interp_todo.specs.Operands.{call_behind};

use pw_cmean::Undef;
use pw_interp_acts::function_of;
use pw_interp_calls::{Ending, Env, Stop, World};
use pw_interp_todo::Callee;
use pw_interp_world::{Body, LibraryFunction, plain_shape};
use pw_types::CType;
use pw_value::program_names::{EXIT_SHAPE, GETCHAR_SHAPE, PUTCHAR_SHAPE};
use pw_value::{Pointer, Shape, Value};
use std::alloc::{AllocError, Global};

/// The function to which a pointer points.
fn pointed_function<'a>(world: &World<'a>, p: Value) -> Option<Body<'a>>
    ensures { option_map callable_of result ≡ meaning.callee_of (view_world world.now).program p }
{
    match p {
        Value::At(Pointer::Function(number)) => world.function_at(number),
        _ => None,
    }
}

/// A shape of these letters.
fn literal(alloc: Global, letters: &[u8]) -> Result<Shape, AllocError>
    ensures { IfOk result (λ shape. shape ≡ letters.now) }
{
    Ok(Shape::new(Vec::from_slice(alloc, letters)?))
}

/// The shape of a function.
fn shape_by<'a>(alloc: Global, function: Body<'a>) -> Result<Shape, AllocError>
    ensures { IfOk result (λ shape. shape ≡ (callable_of function.entry).shape) }
{
    match function {
        Body::Library(LibraryFunction::ExitRun) => literal(alloc, EXIT_SHAPE),
        Body::Library(LibraryFunction::GetChar) => literal(alloc, GETCHAR_SHAPE),
        Body::Library(LibraryFunction::PutChar) => literal(alloc, PUTCHAR_SHAPE),
        Body::Defined(part, f) => plain_shape(alloc, &part.tree.types, &f.ty.ty),
    }
}

/// What a pointer of a type points to; of another type, the type itself.
#[tactic(auto, unfolding(pw_types::specs::Views::view_type), using(pw_types::proofs::ViewLemmas::signature_view))]
fn pointed(ty: &CType) -> &CType
    ensures { view_type result.now ≡ meaning.pointed (view_type ty.now) }
{
    match ty {
        CType::Pointer(target) => &target.ty,
        CType::Void | CType::Int(_) | CType::Array(_, _) => ty,
        CType::Function(_) | CType::Record(_) => ty,
    }
}

/// Whether a function has the shape of a call through a pointer of a type.
fn has_shape<'a>(
    alloc: Global,
    env: &Env<'a>,
    function: Body<'a>,
    ty: &CType,
) -> Result<bool, AllocError>
    ensures { IfOk result (λ has. has ≡ bytes_eq (callable_of function.entry).shape (shape_of (meaning.records_of (view_env env.now)) (meaning.pointed (view_type ty.now)) false)) }
{
    let wanted = plain_shape(alloc, &env.home.tree.types, pointed(ty))?;
    let shape = shape_by(alloc, function)?;
    Ok(shape.as_bytes() == wanted.as_bytes())
}

/// How an undefined operation at a node ends the run.
fn undefined_at<'a>(env: &Env<'a>, token: usize, operation: Undef) -> Stop<'a>
    ensures { told_stop result ≡ Some (acts.Undefined operation (view_env env.now).home.name token) }
{
    Stop::Ended(Ending::Undefined(operation, env.home.name, token))
}

/// The function to which a value points, by the value's type: it is to have the shape of the call.
fn checked<'a>(
    alloc: Global,
    env: &Env<'a>,
    token: usize,
    ty: &CType,
    function: Body<'a>,
) -> Result<Body<'a>, Stop<'a>>
    ensures { (p : value.Value) (vs : List value.Value) (n : ℕ) (w : Shown) → meaning.callee_of (view_env env.now).world.program p ≡ Some (callable_of function.entry)
        → Continues (λ body. meaning.call (view_env env.now).world (runs.calls (view_env env.now).world n) (callable_of body) vs) (view_env env.now).world
        (meaning.call_value (view_env env.now) (runs.calls (view_env env.now).world n) token (view_type ty.now) p vs) w result w }
{
    let agrees = has_shape(alloc, env, function, ty)?;
    if agrees {
        Ok(function)
    } else {
        Err(undefined_at(env, token, Undef::FunctionShape))
    }
}

/// The function to which a value points.
fn called_through<'a>(
    alloc: Global,
    env: &Env<'a>,
    token: usize,
    ty: &CType,
    p: Value,
) -> Result<Body<'a>, Stop<'a>>
    ensures { (vs : List value.Value) (n : ℕ) (w : Shown) → Continues (λ body. meaning.call (view_env env.now).world (runs.calls (view_env env.now).world n) (callable_of body) vs) (view_env env.now).world
        (meaning.call_value (view_env env.now) (runs.calls (view_env env.now).world n) token (view_type ty.now) p vs) w result w }
{
    match pointed_function(env.world, p) {
        Some(function) => checked(alloc, env, token, ty, function),
        None => Err(undefined_at(env, token, Undef::NotAFunction)),
    }
}

/// The function that a call calls.
pub fn callee_of<'a>(alloc: Global, env: &Env<'a>, callee: Callee<'a>) -> Result<Body<'a>, Stop<'a>>
    ensures { (vs : List value.Value) (n : ℕ) (w : Shown) → Continues (λ body. meaning.call (view_env env.now).world (runs.calls (view_env env.now).world n) (callable_of body) vs) (view_env env.now).world
        (call_behind callee.entry vs (view_env env.now) n) w result w }
{
    match callee {
        Callee::Named(symbol) => function_of(alloc, env, symbol),
        Callee::Through(token, ty, p) => called_through(alloc, env, token, ty, p),
    }
}
