//! Where a function begins, and its parameters (ISO C90 6.3.2.2).

ghost use Rattle.std.specs.Prelude.{◌≡◌, IfOk};
ghost use Rattle.pw_typed.specs.Views.{view_function};
ghost use Rattle.pw_cmean.specs.Evaluation.{site};
ghost use Rattle.pw_cmean.specs.SourceRun as runs;
ghost use Rattle.pw_interp_calls.specs.Answers.{Answers};
ghost use Rattle.pw_interp_calls.specs.Views.{view_env};
ghost use Rattle.pw_interp_calls.specs.WorldViews.{view_world};
ghost use Rattle.pw_interp_state.specs.Shown.{view_state};
ghost use Rattle.pw_interp_world.specs.Views.{view_part};

use crate::values::set_local;
use pw_interp_calls::{Env, Stop, World};
use pw_interp_state::State;
use pw_interp_world::Part;
use pw_typed::TFunction;
use pw_value::Value;
use pw_value::words::word_of;
use std::alloc::{AllocError, Global};

/// Where no local is in scope.
pub fn outermost<'a>(
    alloc: Global,
    world: &'a World<'a>,
    home: Part<'a>,
    f: &'a TFunction,
) -> Result<Env<'a>, AllocError>
    ensures { IfOk result (λ env. view_env env ≡ runs.outermost (view_world world.now) (view_part home.entry) (view_function f.now)) }
{
    let mut numbers = Vec::new(alloc);
    numbers.resize(f.locals.len(), None)?;
    Ok(Env {
        world,
        home,
        locals: &f.locals,
        numbers,
    })
}

/// Puts the arguments of a call into the parameters, at the node of a token. Of more than 32 bits can count there is
/// want of memory.
pub fn set_parameters<'a>(
    alloc: Global,
    env: &Env<'a>,
    state: &mut State,
    token: usize,
    args: &[Value],
) -> Result<(), Stop<'a>>
    ensures { Answers (λ done. tt) (view_env env.now).world (runs.set_parameters (site (view_env env.now) token) 0 args.now (view_env env.now)) (view_state state.old) result (view_state state.new) }
{
    for (k, value) in args.iter().enumerate() {
        let local = word_of(k)?;
        set_local(alloc, env, state, token, local, *value)?;
    }
    Ok(())
}
