//! Room on the stack.

ghost use Rattle.std.specs.Prelude.{◌≢◌, IfErr};
ghost use Rattle.pw_cmean.specs.Evaluation as meaning;
ghost use Rattle.pw_interp_state.specs.Shown.{view_state};
ghost use Rattle.pw_interp_calls.specs.Answers.{Answers};
ghost use Rattle.pw_interp_calls.specs.WorldViews.{view_world};

use pw_interp_calls::{Ending, Stop, World};
use pw_interp_state::{State, has_room};

/// Whether the functions that would be active have room on the stack.
pub fn take_room<'a>(world: &World<'a>, state: &State, name: &[u8]) -> Result<(), Stop<'a>>
    ensures answers { Answers (λ x. tt) (view_world world.now) (meaning.take_room (view_world world.now) name.now) (view_state state.now) result (view_state state.now) }
    ensures no_memory { IfErr result (λ stop. stop ≢ Stop.NoMemory) }
{
    if has_room(state, world.frame(name), world.stack) {
        Ok(())
    } else {
        Err(Stop::Ended(Ending::StackFull))
    }
}
