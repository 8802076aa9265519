//! The least broken constraint of a point.

ghost use Rattle.std.specs.Prelude.{◌≡◌, ◌<◌, ◌-◌, ◌^◌, ◌∷◌, [], ℕ, not, None, Ok};
ghost use Rattle.pw_value.specs.Caps.{capped};
ghost use Rattle.pw_check_walk.specs.declared.constraints.CheckKind.TheVariants.{Typing};
ghost use Rattle.pw_check_walk.specs.Causes as spec;
ghost use Rattle.pw_check_walk.specs.Causes.{rank_of_kind};
ghost use Rattle.pw_check_walk.specs.Found.{found_behind, lesser_fault, lesser_found, told, with_cause};

use crate::constraints::{CheckFault, CheckKind, Which};

/// The least fault of a point among the constraints that were tested: of several the one that the order of kinds has
/// first, and of one kind the first that was tested.
#[derive(Clone, Copy)]
pub struct Finding {
    pub least: Option<CheckFault>,
}

/// A broken constraint at a token.
pub fn fault(kind: CheckKind, token: usize) -> CheckFault
    ensures { result ≡ record { kind = kind; token = token } }
{
    CheckFault { kind, token }
}

/// A constraint on types is broken at a token.
pub fn typing(token: usize) -> CheckFault
    ensures { result ≡ record { kind = Typing; token = token } }
{
    fault(CheckKind::Typing, token)
}

/// The place of a kind in the order in which the faults of one point count.
fn rank(kind: CheckKind) -> u8
    ensures { result ≡ rank_of_kind kind }
{
    match kind {
        CheckKind::UnknownName => 1,
        CheckKind::Redeclared => 2,
        CheckKind::Typing => 3,
        CheckKind::Constant => 4,
        CheckKind::Unsupported(_) => 5,
        CheckKind::Limit(Which::NameLength, _) => 6,
        CheckKind::Limit(Which::Nodes, _) => 7,
        CheckKind::Limit(Which::ObjectSize, _) => 8,
        CheckKind::Limit(Which::ShapeLength, _) => 9,
        CheckKind::Limit(Which::Room, _) => 10,
        CheckKind::Limit(Which::TypeDepth, _) => 11,
        CheckKind::Limit(Which::Parameters, _) => 12,
        CheckKind::NoMemory => 13,
    }
}

impl Finding {
    /// Nothing is tested yet.
    pub fn none() -> Finding
        ensures { result.least ≡ None }
    {
        Finding { least: None }
    }

    /// The fault beside what was found before it.
    fn lesser(self, fault: CheckFault) -> Finding
        ensures { result.least ≡ lesser_fault self.least fault }
    {
        match self.least {
            Some(best) if rank(best.kind) <= rank(fault.kind) => self,
            _ => Finding { least: Some(fault) },
        }
    }

    /// One constraint more, which is met where this holds.
    pub fn needs(self, kind: CheckKind, token: usize, holds: bool) -> Finding
        ensures { result.least ≡ with_cause self.least (not holds) (record { kind = kind; token = token }) }
    {
        if holds {
            self
        } else {
            self.lesser(CheckFault { kind, token })
        }
    }

    /// One constraint more: a count keeps its limit. The count is told as far as 64 bits can tell it.
    #[tactic(auto, using(crate::proofs::KeepLemmas::kept))]
    pub fn keeps(self, limit: Which, most: u64, token: usize, count: u64) -> Finding
        requires { most < 2 ^ 64 - 1 }
        ensures { (n : ℕ) → count ≡ capped n → result.least ≡ found_behind self.least (spec.keeps limit most token n ∷ []) }
    {
        self.needs(CheckKind::Limit(limit, count), token, count <= most)
    }

    /// The constraints of the first list, and behind them those of a second.
    pub fn and(self, behind: Finding) -> Finding
        ensures { result.least ≡ lesser_found self.least behind.least }
    {
        match behind.least {
            Some(fault) => self.lesser(fault),
            None => self,
        }
    }

    /// The fault of the first constraint that is broken, if there is one.
    pub fn end(self) -> Result<(), CheckFault>
        ensures { result ≡ told self.least (Ok tt) }
    {
        match self.least {
            Some(fault) => Err(fault),
            None => Ok(()),
        }
    }
}
