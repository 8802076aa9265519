//! The limits of a function.

ghost use Rattle.std.specs.Prelude.{◌≢◌, IfErr};
ghost use Rattle.pw_check_state.specs.Follows.{Follows};
ghost use Rattle.pw_check_state.specs.StateViews.{view_state};
ghost use Rattle.pw_check_rules.specs.Functions as spec;
ghost use Rattle.pw_tree.specs.Views.{view_word};
ghost use Rattle.pw_typed.specs.Views as typed;

use pw_check_state::{Finding, State};
use pw_check_walk::{CheckFault, CheckKind, Which};
use pw_tree::Word;
use pw_typed::{TFunction, room, stmt_nodes};
use pw_value::limits::{NODE_LIMIT, ROOM_LIMIT};

/// The limits of a function, behind its body. It takes no memory.
pub fn measured_rule(state: &State<'_>, word: &Word, f: &TFunction) -> Result<(), CheckFault>
    ensures follows { Follows (λ u. u) (spec.measured_rule (view_word word.now) (typed.view_function f.now)) (view_state state.now) result }
    ensures no_memory { IfErr result (λ fault. fault.kind ≢ CheckKind.NoMemory) }
{
    let nodes = stmt_nodes(&f.body);
    let bytes = room(state.records(), f);
    Finding::none()
        .keeps(Which::Nodes, NODE_LIMIT, word.token, nodes)
        .keeps(Which::Room, u64::from(ROOM_LIMIT), word.token, bytes)
        .end()
}
