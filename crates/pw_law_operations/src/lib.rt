//! What every operation of a flow graph asks for, without code.
#![tactic(auto)]

ghost use Rattle.pw_law_operations.specs.Laws.{CallsAloneEnter, CommandsHaveResults, CommandsRestOnUses};

/// What an operation asks for depends on the temporaries that it reads alone.
pub fn commands_rest_on_uses()
    ensures { CommandsRestOnUses }
{}

/// An operation that is no call calls nothing.
pub fn calls_alone_enter()
    ensures { CallsAloneEnter }
{}

/// A command gives its result to the temporary that its operation defines.
pub fn commands_have_results()
    ensures { CommandsHaveResults }
{}
