//! The initialisers of a block's locals (ISO C90 6.5.7).

ghost use Rattle.std.specs.Prelude.{◌≡◌, ◌∷◌, [], drop};
ghost use Rattle.pw_typed.specs.Views.{view_initialiser, view_stmt};
ghost use Rattle.pw_cmean.specs.Execution as execution;
ghost use Rattle.pw_cmean.specs.SourceRun.{calls};
ghost use Rattle.pw_interp_state.specs.Shown.{view_state};
ghost use Rattle.pw_interp_calls.specs.Views.{view_env};
ghost use Rattle.pw_interp_todo.specs.Flows.{view_entry};
ghost use Rattle.pw_interp_todo.specs.Going.{Leaves};
ghost use Rattle.pw_interp_todo.specs.Members as any;
ghost use Rattle.pw_interp_todo.specs.Parts as parts;
ghost use Rattle.pw_interp_todo.specs.Steps.{StepsStatement};

use pw_interp_calls::{Env, Stop};
use pw_interp_entries::{initialisers_in, members_in};
use pw_interp_functions::initialise_bytes;
use pw_interp_state::State;
use pw_interp_todo::{Asked, Doing, Entry, Flow, Going, Part, Purpose, Turn, Use};
use pw_typed::{Initialiser, TStmt};
use std::alloc::Global;

/// The initialiser of a place, behind which those from another on follow: its expression comes, or the local has the bytes
/// of a hidden object.
fn initialised<'a>(
    alloc: Global,
    env: &Env<'a>,
    state: &mut State,
    s: &'a TStmt,
    i: usize,
    rest: usize,
    first: &'a Initialiser,
) -> Result<Going<'a>, Stop<'a>>
    ensures { drop i (any.initialisers_in (view_stmt s.now)) ≡ view_initialiser first.now ∷ drop rest (any.initialisers_in (view_stmt s.now))
        → StepsStatement (view_env env.now) (λ e n. parts.inside (drop i (any.initialisers_in (view_stmt s.now))) (any.members_in (view_stmt s.now)) execution.Front (calls e.world n) e) (view_state state.old) result (view_state state.new) }
{
    match first {
        Initialiser::Value(_, e) => {
            let purpose = Purpose::Initialise(i);
            let given = Use { purpose, of: s };
            Ok(Going::Ask(Asked::Answer(e), given))
        }
        Initialiser::Bytes(local, hidden, _) => {
            initialise_bytes(alloc, env, state, *local, *hidden)?;
            let part = Part::Initialisers(rest);
            let at = Entry::Front;
            Ok(Going::On(Turn::Here, Doing { part, of: s, at }))
        }
    }
}

/// The list of a block behind its initialisers; what has no list is passed over.
fn list<'a>(s: &'a TStmt, at: Entry) -> Going<'a>
    ensures { Leaves (λ e n. parts.inside [] (any.members_in (view_stmt s.now)) (view_entry at) (calls e.world n) e) result }
{
    match members_in(s).get(0) {
        Some(_first) => Going::On(
            Turn::Here,
            Doing {
                part: Part::Taking,
                of: s,
                at,
            },
        ),
        None => Going::Left(Flow::Normal),
    }
}

/// The initialisers of a block from a place on, and its list; entered at a label, the block passes over them.
pub fn initialisers<'a>(
    alloc: Global,
    env: &Env<'a>,
    state: &mut State,
    s: &'a TStmt,
    i: usize,
    at: Entry,
) -> Result<Going<'a>, Stop<'a>>
    ensures { StepsStatement (view_env env.now) (λ e n. parts.inside (drop i (any.initialisers_in (view_stmt s.now))) (any.members_in (view_stmt s.now)) (view_entry at) (calls e.world n) e) (view_state state.old) result (view_state state.new) }
{
    match at {
        Entry::Front => match initialisers_in(s).get(i) {
            Some(first) => initialised(alloc, env, state, s, i, i + 1, first),
            None => Ok(list(s, at)),
        },
        Entry::AtLabel(_) => Ok(list(s, at)),
    }
}
