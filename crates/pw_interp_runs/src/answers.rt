//! What a run comes to, as the answer of the command, with its line.

ghost use Rattle.std.specs.Prelude.{◌≡◌, IfOk, OnErr, map};
ghost use Rattle.pw_store_modules.specs.Views.{source};
ghost use Rattle.pw_interp.specs.Ends.{view_end};
ghost use Rattle.pw_interp_runs.specs.Running as spec;
ghost use Rattle.pw_interp_runs.specs.Running.{IsRunAnswer, RepliesTo, TellsToken, end_answer};

use pw_front_end::{ParseFault, Refusal, refusal_line};
use pw_interp::{CEnd, InterpFault};
use pw_store_modules::Module;
use pw_top_answer::{Answer, Reply};
use pw_value::Name;
use std::alloc::{AllocError, Global};

/// How a run ended, as the answer.
fn answer_of_end(end: CEnd) -> Answer
    ensures { result ≡ end_answer (view_end end) }
{
    match end {
        CEnd::Ended(status) => Answer::Ended(status),
        CEnd::Stack => Answer::StackStop,
        CEnd::Undefined(operation, home, token) => Answer::Undefined(operation, home, token),
        CEnd::Bound => Answer::Spent,
    }
}

/// What a run came to, as the answer.
pub fn answer_of(ran: Result<CEnd, InterpFault>) -> Answer
    ensures is { result ≡ spec.answer_of ran }
    ensures proper { IsRunAnswer result }
{
    match ran {
        Ok(end) => answer_of_end(end),
        Err(InterpFault::ReadFault) => Answer::ReadFault,
        Err(InterpFault::WriteFault) => Answer::WriteFault,
        Err(InterpFault::NoMemory) => Answer::NoMemory,
    }
}

/// The line of a token in the text of the module of a name. It is where a fault of syntax at the token would be told.
#[tactic(auto, unfolding(pw_front_end::specs::Places::refusal_line))]
fn token_line(
    alloc: Global,
    modules: &[Module],
    name: &Name,
    token: usize,
) -> Result<Option<usize>, AllocError>
    ensures { IfOk result (λ line. line ≡ spec.token_line (map source modules.now) name.now token) }
{
    let mut rest = modules;
    while let [which, after @ ..] = rest {
        if which.name.as_bytes() == name.as_bytes() {
            let at = Refusal::Parse(ParseFault::Syntax { token });
            let line = refusal_line(alloc, which.text.as_slice(), &at)?;
            return Ok(Some(line));
        }
        rest = after;
    }
    Ok(None)
}

/// The line that the answer to a run tells.
fn line_of(alloc: Global, modules: &[Module], answer: &Answer) -> Result<Option<usize>, AllocError>
    ensures line { IfOk result (λ line. line ≡ spec.run_line (map source modules.now) answer.now) }
    ensures memory { OnErr result (TellsToken answer.now) }
{
    match answer {
        Answer::Undefined(_, name, token) => token_line(alloc, modules, name, *token),
        _ => Ok(None),
    }
}

/// The answer to a run with its line, or want of memory for that.
pub fn with_line(alloc: Global, modules: &[Module], answer: Answer) -> Reply
    ensures { RepliesTo (map source modules.now) answer result }
{
    match line_of(alloc, modules, &answer) {
        Ok(line) => Reply { answer, line },
        Err(AllocError) => Reply {
            answer: Answer::NoMemory,
            line: None,
        },
    }
}
