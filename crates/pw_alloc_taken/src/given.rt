//! What temporaries have been given: one after the other each gets a register that no other one has which interferes.

ghost use Rattle.std.specs.Prelude.{◌≡◌, ◌⊎◌, ◌<◌, ◌↔◌, ℕ, [], List, None, Some, true, length, slice_index, IsTrue, IfOk};
ghost use Rattle.pw_live.specs.Points.{points};
ghost use Rattle.pw_live_spans.specs.Spans.{IsIn, Covers};
ghost use Rattle.pw_alloc_masks.specs.Masks.{HasRegister};
ghost use Rattle.pw_alloc_taken.specs.Knowing.{AreFacts, AreSized, AreGiven};
ghost use Rattle.pw_alloc_temps.specs.Registers.{is_taken, with_register, register_of};

use crate::facts::Facts;
use crate::occupied::{made_beside, occupied_behind, occupy, put_behind, taken_at_start};
use pw_alloc_masks::{PointSets, both, with_register};
use pw_live_fronts::Outline;
use pw_live_spans::laws::points_stand_by_number;
use std::alloc::{AllocError as NoMemory, Global};

/// What temporaries have been given so far.
#[derive(Drop)]
pub struct Given {
    /// Of each temporary its register, once it has one.
    pub registers: Vec<Option<u8>>,
    /// Of each point the registers of the temporaries that are live there.
    pub occupied: Vec<u32>,
    /// Of each point the register of the temporary that is written directly before it.
    pub made: PointSets,
    /// The registers of parameters.
    pub params: u32,
}

impl Given {
    /// No registers yet, of so many temporaries and points.
    pub fn new(alloc: Global, f: &Outline, count: usize) -> Result<Given, NoMemory>
        requires { count ≡ length (points f.now) }
        ensures sized { IfOk result (AreSized f.now) }
        ensures given { IfOk result (AreGiven f.now []) }
    {
        let registers = vec![in alloc; None; f.temps() as usize]?;
        let occupied = vec![in alloc; 0; count]?;
        let made = PointSets::new(alloc, count)?;
        Ok(Given {
            registers,
            occupied,
            made,
            params: 0,
        })
    }
}

/// Whether a span has the first point.
fn has_first(span: (usize, usize)) -> bool
    ensures { IsTrue result ↔ IsIn span 0 }
{
    span.0 == 0 && span.1 > 0
}

/// Whether a temporary is live where the function starts.
fn is_live_at_start(spans: &[(usize, usize)]) -> bool
    ensures { IsTrue result ↔ Covers spans.now 0 }
{
    for place in 0..spans.len() {
        if has_first(spans[place]) {
            return true;
        }
    }
    false
}

/// What is occupied where the function starts.
fn at_start(occupied: &[u32]) -> u32
    ensures { result ≡ slice_index occupied.now 0 }
{
    if occupied.is_empty() {
        return 0;
    }
    occupied[0]
}

/// The registers that a temporary may not have, since one that interferes has them.
pub fn taken(given: &Given, facts: &Facts, f: &Outline, t: u32) -> u32
    requires facts { AreFacts f.now facts.now }
    requires sized { AreSized f.now given.now }
    requires temp { t < f.now.temps }
    ensures { (gs : List (ℕ × ℕ)) → AreGiven f.now gs given.now → register_of gs t ≡ None → (r : ℕ) → HasRegister result r ↔ (is_taken f.now gs t r ≡ true) }
{
    points_stand_by_number();
    let spans = facts.liveness.spans.of(t);
    let beside = made_beside(&given.made, spans);
    let row = facts.definitions[t as usize].as_slice();
    let behind = occupied_behind(row, &given.occupied);
    let start = at_start(&given.occupied);
    let is_live = is_live_at_start(spans);
    let first = taken_at_start(t < f.params(), is_live, given.params, start);
    let written = both(beside, behind);
    both(written, first)
}

/// A set with one more register, where it is that of a parameter.
fn with_param(params: u32, is_param: bool, r: u8) -> u32
    requires { r < 32 }
    ensures { (k : ℕ) → HasRegister result k ↔ (HasRegister params k ⊎ ((is_param ≡ true) × (k ≡ r))) }
{
    if is_param {
        with_register(params, r)
    } else {
        params
    }
}

/// Gives a register to a temporary that has none.
pub fn give(given: &mut Given, facts: &Facts, f: &Outline, t: u32, r: u8)
    requires facts { AreFacts f.now facts.now }
    requires sized { AreSized f.now given.old }
    requires temp { t < f.now.temps }
    requires register { r < 32 }
    ensures sized { AreSized f.now given.new }
    ensures given { (gs : List (ℕ × ℕ)) → AreGiven f.now gs given.old → register_of gs t ≡ None → AreGiven f.now (with_register t (Some r) gs) given.new }
{
    points_stand_by_number();
    let params = with_param(given.params, t < f.params(), r);
    given.params = params;
    given.registers[t as usize] = Some(r);
    put_behind(&mut given.made, facts.definitions[t as usize].as_slice(), r);
    occupy(&mut given.occupied, facts.liveness.spans.of(t), r);
}
