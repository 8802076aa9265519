// The numbers of the calls of an object in memory, its faults, and which calls are to fail.
ghost use Rattle.std.specs.Prelude.{◌≡◌, ◌↔◌, IsTrue};
ghost use Rattle.pw_io.specs.Faults.{next_fault};
ghost use Rattle.pw_io.specs.Memory.{HasCall, next_call};

/// How many calls there were and how many faults. Both counts stand still at their ends.
#[derive(Clone, Copy)]
pub(crate) struct Tally {
    pub(crate) calls: u128,
    pub(crate) faults: u64,
}

impl Tally {
    pub(crate) fn new() -> Self
        ensures { result ≡ record { calls = 0; faults = 0 } }
    {
        Tally {
            calls: 0,
            faults: 0,
        }
    }

    /// Counts a call, and answers its number. The first is 1.
    pub(crate) fn next_call(&mut self) -> u128
        ensures number { result ≡ next_call self.old.calls }
        ensures new { self.new ≡ record self.old { calls = result } }
    {
        self.calls = self.calls.saturating_add(1);
        self.calls
    }

    pub(crate) fn count_fault(&mut self)
        ensures { self.new ≡ record self.old { faults = next_fault self.old.faults } }
    {
        self.faults = self.faults.saturating_add(1);
    }
}

/// Whether the call's number stands in the list.
#[tactic(auto, unfolding(crate::specs::Memory::HasCall))]
pub(crate) fn has_call(numbers: &[u64], call: u128) -> bool
    ensures { IsTrue result ↔ HasCall numbers.now call }
{
    numbers.iter().any(|&number| u128::from(number) == call)
}
