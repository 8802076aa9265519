//! What is left of an expression or a statement, put on the list of what is left to do.

ghost use Rattle.std.specs.Prelude.{◌≡◌, ◌+◌, ℕ, IfErr, IfOk};
ghost use Rattle.pw_cmean.specs.Acts.{State as AnyState};
ghost use Rattle.pw_cmean.specs.Evaluation.{Env};
ghost use Rattle.pw_interp_state.specs.Shown.{Shown};
ghost use Rattle.pw_interp_todo.specs.Going.{going_act};
ghost use Rattle.pw_interp_todo.specs.Leading.{Continues};
ghost use Rattle.pw_interp_todo.specs.Operands.{next_act};
ghost use Rattle.pw_interp_todo.specs.Resuming.{Rest, control_act, resume};
ghost use Rattle.pw_interp_pushes.specs.Orders.{then_gave, then_flowed};

use pw_interp_calls::{Ending, Stop};
use pw_interp_todo::{Control, Doing, Going, Next, Todo, Turn};
use std::alloc::AllocError;

/// What is left of an expression: what is done now, and what comes behind it goes on the list.
pub fn push_next<'a>(todo: &mut Vec<Todo<'a>>, next: Next<'a>) -> Result<Control<'a>, AllocError>
    ensures { IfOk result (λ control. (e : Env) (bound : ℕ) (rest : Rest) (s : AnyState) →
        (then_gave (next_act next.entry e bound) (resume todo.old.items rest) e bound) s ≡ control_act control e bound (resume todo.new.items rest) s) }
{
    match next {
        Next::Gave(given) => Ok(Control::Gave(given)),
        Next::Ask(asked) => Ok(Control::Ask(asked)),
        Next::Behind(asked, operand) => {
            todo.push(Todo::Operand(operand))?;
            Ok(Control::Ask(asked))
        }
        Next::Arguments(args, token, callee) => {
            todo.push(Todo::Call(callee))?;
            Ok(Control::Arguments(args, token))
        }
    }
}

/// A bound that is one smaller; a bound of 0 ends the run.
#[inline(always)]
pub fn lower<'a>(bound: u64) -> Result<u64, Stop<'a>>
    ensures lower { IfOk result (λ lower. bound ≡ lower + 1) }
    ensures none { IfErr result (λ stop. (bound ≡ 0) × (stop ≡ Stop.Ended Ending.Bound)) }
{
    match bound.checked_sub(1) {
        Some(lower) => Ok(lower),
        None => Err(Stop::Ended(Ending::Bound)),
    }
}

/// A part of a statement in its place, with the bound of now or with one that is one smaller.
#[inline(always)]
fn push_on<'a>(
    bound: &mut u64,
    turn: Turn,
    what: Doing<'a>,
    after: u64,
) -> Result<Control<'a>, Stop<'a>>
    ensures { (e : Env) (rest : Rest) (w : Shown) →
        Continues (λ control. control_act control e bound.new rest) e.world
        (then_flowed (going_act (Going.On turn what.entry) e bound.old) rest e after) w result w }
{
    match turn {
        Turn::Here => Ok(Control::Do { what, bound: after }),
        Turn::Back => {
            let lowered = lower(*bound)?;
            *bound = lowered;
            Ok(Control::Do { what, bound: after })
        }
    }
}

/// What is left of a statement behind which the run goes on with the bound `after`: what is done now, with the bound of now, and
/// what comes behind it goes on the list.
#[inline(always)]
pub fn push_going<'a>(
    todo: &mut Vec<Todo<'a>>,
    bound: &mut u64,
    going: Going<'a>,
    after: u64,
) -> Result<Control<'a>, Stop<'a>>
    ensures { (e : Env) (rest : Rest) (w : Shown) →
        Continues (λ control. control_act control e bound.new (resume todo.new.items rest)) e.world
        (then_flowed (going_act going.entry e bound.old) (resume todo.old.items rest) e after) w result w }
{
    match going {
        Going::Left(flow) => {
            *bound = after;
            Ok(Control::Flowed(flow))
        }
        Going::On(turn, what) => push_on(bound, turn, what, after),
        Going::Then(what, rest) => {
            todo.push(Todo::Flow {
                what: rest,
                bound: after,
            })?;
            Ok(Control::Do {
                what,
                bound: *bound,
            })
        }
        Going::Ask(asked, given) => {
            todo.push(Todo::Value {
                what: given,
                bound: after,
            })?;
            Ok(Control::Ask(asked))
        }
    }
}
