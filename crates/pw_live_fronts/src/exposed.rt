//! Temporaries that some block uses before it defines them. No other one can be live at the front of a block, so rows of
//! bits are kept of these alone.

ghost use Rattle.std.specs.Prelude.{◌≡◌, ◌≢◌, ◌⊎◌, ◌+◌, ◌<◌, ◌≤◌, ℕ, true, length, slice_get, slice_index, vec_len, All, Contains, Some, None, IfOk, IfSome, OnOk};
ghost use Rattle.pw_live_fronts.specs.Blocks.{IsAct, IsStretch, IsOutline, uses_first};
ghost use Rattle.pw_live.specs.Liveness.{is_that};
ghost use Rattle.pw_live_fronts.specs.Exposing.{IsExposed};
ghost use Rattle.pw_flow.specs.Outline.{Stretch as StretchValue};

use crate::named::Exposed;
use crate::outline::{Act, Outline, Stretch};
use std::alloc::{AllocError as NoMemory, Global};

impl Exposed {
    /// None yet, of so many temporaries.
    fn new(alloc: Global, temps: u32) -> Result<Exposed, NoMemory>
        ensures { IfOk result (λ e. vec_len e.numbers ≡ temps) }
    {
        let names = Vec::new(alloc);
        let numbers = vec![in alloc; None; temps as usize]?;
        Ok(Exposed { names, numbers })
    }

    /// Gives a number to a temporary that has none.
    fn add(&mut self, t: u32) -> Result<(), NoMemory>
        requires { slice_get self.old.numbers.items t ≡ Some None }
        ensures count { vec_len self.new.numbers ≡ vec_len self.old.numbers }
        ensures there { OnOk result (IsExposed self.new t) }
        ensures kept { (u : ℕ) → IsExposed self.old u → IsExposed self.new u }
    {
        let number = self.names.len();
        self.names.push(t)?;
        self.numbers[t as usize] = Some(number);
        Ok(())
    }

    /// Gives a temporary a number, where it has none.
    fn expose(&mut self, t: u32) -> Result<(), NoMemory>
        requires { t < vec_len self.old.numbers }
        ensures count { vec_len self.new.numbers ≡ vec_len self.old.numbers }
        ensures there { OnOk result (IsExposed self.new t) }
        ensures kept { (u : ℕ) → IsExposed self.old u → IsExposed self.new u }
    {
        match self.numbers[t as usize] {
            Some(_) => Ok(()),
            None => self.add(t),
        }
    }
}

/// Exposes a temporary, unless it bears the mark.
fn expose_use(exposed: &mut Exposed, marks: &[usize], mark: usize, t: u32) -> Result<(), NoMemory>
    requires marks { length marks.now ≡ vec_len exposed.old.numbers }
    requires temp { t < vec_len exposed.old.numbers }
    ensures count { vec_len exposed.new.numbers ≡ vec_len exposed.old.numbers }
    ensures kept { (u : ℕ) → IsExposed exposed.old u → IsExposed exposed.new u }
    ensures there { OnOk result (slice_index marks.now t ≢ mark → IsExposed exposed.new t) }
{
    if marks[t as usize] == mark {
        return Ok(());
    }
    exposed.expose(t)
}

/// Exposes those of the temporaries that do not bear the mark.
fn expose_uses(
    exposed: &mut Exposed,
    marks: &[usize],
    mark: usize,
    uses: &[u32],
) -> Result<(), NoMemory>
    requires marks { length marks.now ≡ vec_len exposed.old.numbers }
    requires uses { All (λ t. t < vec_len exposed.old.numbers) uses.now }
    ensures count { vec_len exposed.new.numbers ≡ vec_len exposed.old.numbers }
    ensures kept { (u : ℕ) → IsExposed exposed.old u → IsExposed exposed.new u }
    ensures there { OnOk result ((t : ℕ) → Contains uses.now t → slice_index marks.now t ≢ mark → IsExposed exposed.new t) }
{
    for &t in uses {
        expose_use(exposed, marks, mark, t)?;
    }
    Ok(())
}

/// Marks what an operation defines.
fn mark_defined(marks: &mut [usize], mark: usize, defined: Option<u32>)
    requires { IfSome defined (λ t. t < length marks.old) }
    ensures length { length marks.new ≡ length marks.old }
    ensures marked { (t : ℕ) → slice_index marks.new t ≡ mark → (slice_index marks.old t ≡ mark) ⊎ (is_that defined t ≡ true) }
    ensures low { ((t : ℕ) → slice_index marks.old t ≤ mark) → (t : ℕ) → slice_index marks.new t ≤ mark }
{
    let Some(t) = defined else {
        return;
    };
    marks[t as usize] = mark;
}

/// Exposes what an operation reads and the block did not define before, and marks what it defines.
fn expose_act(
    exposed: &mut Exposed,
    marks: &mut [usize],
    mark: usize,
    act: &Act,
) -> Result<(), NoMemory>
    requires marks { length marks.old ≡ vec_len exposed.old.numbers }
    requires act { IsAct (vec_len exposed.old.numbers) act.now }
    ensures length { length marks.new ≡ length marks.old }
    ensures count { vec_len exposed.new.numbers ≡ vec_len exposed.old.numbers }
    ensures kept { (u : ℕ) → IsExposed exposed.old u → IsExposed exposed.new u }
    ensures there { OnOk result ((t : ℕ) → Contains act.now.uses t → slice_index marks.old t ≢ mark → IsExposed exposed.new t) }
    ensures marked { (t : ℕ) → slice_index marks.new t ≡ mark → (slice_index marks.old t ≡ mark) ⊎ (is_that act.now.defines t ≡ true) }
    ensures low { ((t : ℕ) → slice_index marks.old t ≤ mark) → (t : ℕ) → slice_index marks.new t ≤ mark }
{
    expose_uses(exposed, marks, mark, act.uses())?;
    mark_defined(marks, mark, act.defines());
    Ok(())
}

/// Exposes what a block uses before it defines it. Its mark is above all marks that stand.
fn expose_block(
    exposed: &mut Exposed,
    marks: &mut [usize],
    mark: usize,
    block: &Stretch,
    blocks: usize,
) -> Result<(), NoMemory>
    requires marks { length marks.old ≡ vec_len exposed.old.numbers }
    requires block { IsStretch (vec_len exposed.old.numbers) blocks block.now }
    requires fresh { (t : ℕ) → slice_index marks.old t < mark }
    ensures length { length marks.new ≡ length marks.old }
    ensures count { vec_len exposed.new.numbers ≡ vec_len exposed.old.numbers }
    ensures kept { (u : ℕ) → IsExposed exposed.old u → IsExposed exposed.new u }
    ensures there { OnOk result ((t : ℕ) → uses_first t block.now.acts block.now.uses ≡ true → IsExposed exposed.new t) }
    ensures low { (t : ℕ) → slice_index marks.new t ≤ mark }
{
    for act in block.acts() {
        expose_act(exposed, marks, mark, act)?;
    }
    expose_uses(exposed, marks, mark, block.uses())?;
    Ok(())
}

/// The temporaries of a function that some block uses before it defines them.
pub(crate) fn expose_all(alloc: Global, f: &Outline) -> Result<Exposed, NoMemory>
    requires { IsOutline f.now }
    ensures count { IfOk result (λ e. vec_len e.numbers ≡ f.now.temps) }
    ensures there { IfOk result (λ e. (b t : ℕ) (s : StretchValue) → slice_get f.now.blocks b ≡ Some s → uses_first t s.acts s.uses ≡ true → IsExposed e t) }
{
    let mut exposed = Exposed::new(alloc, f.temps())?;
    let mut marks = vec![in alloc; 0; f.temps() as usize]?;
    let blocks = f.blocks();
    for place in 0..blocks.len() {
        expose_block(
            &mut exposed,
            &mut marks,
            place + 1,
            &blocks[place],
            blocks.len(),
        )?;
    }
    Ok(exposed)
}
