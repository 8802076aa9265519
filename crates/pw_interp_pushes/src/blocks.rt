//! Blocks, whose locals get objects of their own (ISO C90 6.1.2.4).

ghost use Rattle.std.specs.Prelude.{◌≡◌, ◌+◌, ◌<◌, ◌∷◌, ◌++◌, [], ℕ, IfOk, option_and_then, slice_get};
ghost use Rattle.pw_value.specs.Objects.{ended};
ghost use Rattle.pw_typed.specs.Views.{view_stmt};
ghost use Rattle.pw_interp_calls.specs.Views.{view_env};
ghost use Rattle.pw_interp_state.specs.Shown.{view_state};
ghost use Rattle.pw_interp_todo.specs.Flows.{view_entry};
ghost use Rattle.pw_interp_todo.specs.Members as any;
ghost use Rattle.pw_interp_todo.specs.Parts.{part_act};
ghost use Rattle.pw_interp_todo.specs.Resuming.{Rest, control_act, put_back, resume};
ghost use Rattle.pw_cmean.specs.Evaluation.{Env as AnyEnv};
ghost use Rattle.pw_interp_pushes.specs.Staying.{StepsCall};
ghost use Rattle.pw_interp_pushes.specs.Orders.{then_flowed};

use crate::call::Call;
use pw_interp_calls::{Ending, Stop};
use pw_interp_functions::{make_local, set_number};
use pw_interp_state::{Objects, State};
use pw_interp_todo::{Control, Doing, Entry, Part, Todo};
use pw_typed::{TStmt, TStmtForm};
use std::alloc::{AllocError, Global};

/// The first local of a block, and how many live in it; what is no block has none.
#[tactic(auto, unfolding(pw_typed::specs::Views::view_stmt_form), using(pw_typed::proofs::Rows::block_view, pw_typed::proofs::Rows::if_view))]
fn locals_in(s: &TStmt) -> (u32, u32)
    ensures first { result.0 ≡ any.first_in (view_stmt s.now) }
    ensures count { result.1 ≡ any.count_in (view_stmt s.now) }
{
    match &s.form {
        TStmtForm::Block { first, count, .. } => (*first, *count),
        _ => (0, 0),
    }
}

/// The number of the object that a local has, where it is in scope.
fn number_of(numbers: &[Option<u128>], local: usize) -> Option<u128>
    ensures { result ≡ option_and_then (λ n. n) (slice_get numbers.now local) }
{
    match numbers.get(local) {
        Some(number) => *number,
        None => None,
    }
}

/// Behind the object of a local the others of its block come, and behind the block it ends.
fn note_local<'a>(
    todo: &mut Vec<Todo<'a>>,
    of: &'a TStmt,
    opened: u32,
    at: Entry,
    bound: u64,
    end: Todo<'a>,
) -> Result<Control<'a>, AllocError>
    ensures { IfOk result (λ control. (e : AnyEnv) (n : ℕ) (rest : Rest) → control_act control e n (resume todo.new.items rest)
        ≡ (then_flowed (part_act (Part.Locals opened) (view_stmt of.now) (view_entry at) e n) (resume (todo.old.items ++ end.entry ∷ []) rest) e bound)) }
{
    todo.push(end)?;
    let part = Part::Locals(opened);
    let what = Doing { part, of, at };
    Ok(Control::Do { what, bound })
}

/// The next local of a block gets an object of its own, behind which the others come, and behind the block the local has
/// what it had before.
fn open_one<'a>(
    alloc: Global,
    call: &mut Call<'a>,
    state: &mut State,
    of: &'a TStmt,
    made: u32,
    local: usize,
    at: Entry,
    bound: u64,
) -> Result<Control<'a>, Stop<'a>>
    requires next { made < any.count_in (view_stmt of.now) }
    requires fits { made < 4294967295 }
    requires place { local ≡ any.first_in (view_stmt of.now) + made }
    ensures { StepsCall call.old (λ rest. then_flowed (part_act (Part.Locals made) (view_stmt of.now) (view_entry at) (view_env call.old.env) call.old.bound) rest (view_env call.old.env) bound) (view_state state.old) result call.new (view_state state.new) }
{
    let before = number_of(&call.env.numbers, local);
    let count = state.objects.count();
    let opened = make_local(alloc, &mut call.env, &mut state.objects, local)?;
    if !opened {
        return Err(Stop::Ended(Ending::Wrong));
    }
    let number = count as u128;
    let end = Todo::EndLocal {
        local,
        number,
        before,
    };
    let control = note_local(&mut call.todo, of, made + 1, at, bound, end)?;
    Ok(control)
}

/// A block, so many of whose locals have their objects: the next gets its own, or where all have theirs the inside comes.
#[inline(never)]
pub fn open_block<'a>(
    alloc: Global,
    call: &mut Call<'a>,
    state: &mut State,
    of: &'a TStmt,
    made: u32,
    at: Entry,
    bound: u64,
) -> Result<Control<'a>, Stop<'a>>
    ensures { StepsCall call.old (λ rest. then_flowed (part_act (Part.Locals made) (view_stmt of.now) (view_entry at) (view_env call.old.env) call.old.bound) rest (view_env call.old.env) bound) (view_state state.old) result call.new (view_state state.new) }
{
    let (first, count) = locals_in(of);
    if made < count {
        let local = first as usize + made as usize;
        open_one(alloc, call, state, of, made, local, at, bound)
    } else {
        let part = Part::Initialisers(0);
        let what = Doing { part, of, at };
        Ok(Control::Do { what, bound })
    }
}

/// The object of a local ends, and the local has what it had before.
#[inline(never)]
pub fn end_local<'a>(
    call: &mut Call<'a>,
    objects: &mut Objects,
    local: usize,
    number: u128,
    before: Option<u128>,
)
    ensures objects { objects.new ≡ ended number objects.old }
    ensures env { view_env call.new.env ≡ put_back local before (view_env call.old.env) }
    ensures bound { call.new.bound ≡ call.old.bound }
    ensures todo { call.new.todo.items ≡ call.old.todo.items }
    ensures before { call.new.before ≡ call.old.before }
{
    objects.end(number);
    set_number(&mut call.env.numbers, local, before);
}
