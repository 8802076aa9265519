// Sources in memory: one that fails at given calls, and one that never fails.
ghost use Rattle.std.specs.Prelude.{◌≡◌, ◌↔◌, List, Some, [], drop, slice_get, IsErr, IfOk, OnOk, OnErr};
ghost use Rattle.pw_io.specs.Faults.{HasCause, next_fault};
ghost use Rattle.pw_io.specs.Streams.{TakesNext};
ghost use Rattle.pw_io.specs.Memory.{next_call, HasCall};

use crate::calls::{Tally, has_call};
use crate::{Failed, NoMemory, Source};
use std::alloc::Global;
use std::marker::Model;

/// A source of given bytes that has no fault. It is seen as the bytes that are still to come.
#[derive(Drop)]
pub struct SureSource {
    bytes: Vec<u8>,
    next: usize,
}

impl Model for SureSource {
    ghost use Rattle.std.specs.Prelude.{ℕ, List, drop};

    ghost Value = { List ℕ };

    ghost view = { λ s. drop s.next s.bytes.items };
}

impl SureSource {
    /// A source of these bytes.
    pub fn new(alloc: Global, bytes: &[u8]) -> Result<SureSource, NoMemory>
        ensures { IfOk result (λ source. source ≡ bytes.now) }
    {
        Ok(SureSource {
            bytes: bytes.to_vec(alloc)?,
            next: 0,
        })
    }
}

impl Source for SureSource {
    ghost rest = { λ s. Some s };

    ghost faults = { λ _. 0 };

    /// Takes no memory.
    fn next(&mut self) -> Result<Option<u8>, Failed>
        ensures byte { result ≡ Ok (slice_get self.old 0) }
        ensures taken { self.new ≡ drop 1 self.old }
        ensures rest { TakesNext (Some self.old) (Some self.new) result }
        ensures cause { HasCause 0 0 result }
    {
        let byte = self.bytes.get(self.next).copied();
        if byte.is_some() {
            self.next += 1;
        }
        Ok(byte)
    }
}

/// A source of given bytes that fails at given calls. Calls are numbered from 1.
#[derive(Drop)]
pub struct MemSource {
    source: SureSource,
    tally: Tally,
    fails: Vec<u64>,
}

impl Model for MemSource {
    ghost use Rattle.pw_io.specs.Memory.{MemSourceState};

    ghost Value = { MemSourceState };

    ghost view = { λ s. record {
      rest = s.source;
      calls = s.tally.calls;
      faults = s.tally.faults;
      fails = s.fails.items;
    } };
}

impl MemSource {
    /// A source of these bytes that fails at the calls whose numbers stand in `fails`.
    pub fn new(alloc: Global, bytes: &[u8], fails: &[u64]) -> Result<MemSource, NoMemory>
        ensures { IfOk result (λ source.
            source ≡ record { rest = bytes.now; calls = 0; faults = 0; fails = fails.now }) }
    {
        Ok(MemSource {
            source: SureSource::new(alloc, bytes)?,
            tally: Tally::new(),
            fails: fails.to_vec(alloc)?,
        })
    }
}

impl Source for MemSource {
    ghost rest = { λ s. Some s.rest };

    ghost faults = { λ s. s.faults };

    /// Takes no memory.
    fn next(&mut self) -> Result<Option<u8>, Failed>
        ensures fails { IsErr result ↔ HasCall self.old.fails (next_call self.old.calls) }
        ensures byte { IfOk result (λ byte. byte ≡ slice_get self.old.rest 0) }
        ensures taken { OnOk result
            (self.new ≡ record self.old { rest = drop 1 self.old.rest; calls = next_call self.old.calls }) }
        ensures failed { OnErr result
            (self.new ≡ record self.old { calls = next_call self.old.calls; faults = next_fault self.old.faults }) }
        ensures rest { TakesNext (Some self.old.rest) (Some self.new.rest) result }
        ensures cause { HasCause self.old.faults self.new.faults result }
    {
        let call = self.tally.next_call();
        if has_call(&self.fails, call) {
            self.tally.count_fault();
            return Err(Failed);
        }
        self.source.next()
    }
}
