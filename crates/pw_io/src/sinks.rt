// Sinks in memory: one that fails at given calls and when it is full, one that never fails, and one
// that keeps nothing.
ghost use Rattle.std.specs.Prelude.{◌≡◌, ◌≢◌, ◌+◌, ◌<◌, ◌≤◌, ◌↔◌, ◌⊎◌, ◌++◌, [], true, false, length, Some, None, IsTrue, IsFalse, IsOk, IsErr, IfOk, OnOk, OnErr};
ghost use Rattle.std.specs.Bool.{OnTrue, OnFalse};
ghost use Rattle.pw_io.specs.Faults.{HasCause, next_fault};
ghost use Rattle.pw_io.specs.Streams.{Appends, AppendsPart};
ghost use Rattle.pw_io.specs.Memory.{next_call, HasCall, kept_told, Refuses};

use crate::calls::{Tally, has_call};
use crate::{Failed, NoMemory, Sink};
use std::alloc::Global;
use std::marker::Model;

/// Bytes in memory of a fixed size, all of which is taken at the start.
#[derive(Drop)]
struct Buffer {
    bytes: Vec<u8>,
    room: usize,
}

impl Model for Buffer {
    ghost use Rattle.std.specs.Prelude.{◌≤◌, vec_len, vec_capacity};
    ghost use Rattle.pw_io.specs.Memory.{BufferState};

    ghost Value = { BufferState };

    ghost view = { λ b. record { bytes = b.bytes.items; room = b.room } };

    ghost invariant = { λ b. (vec_len b.bytes ≤ b.room) × (b.room ≤ vec_capacity b.bytes) };
}

impl Buffer {
    fn new(alloc: Global, room: usize) -> Result<Buffer, NoMemory>
        ensures { IfOk result (λ buffer. buffer ≡ record { bytes = []; room = room }) }
    {
        Ok(Buffer {
            bytes: Vec::with_capacity(alloc, room)?,
            room,
        })
    }

    /// Appends the piece where it fits, with no new memory, and answers whether it does.
    fn append(&mut self, piece: &[u8]) -> bool
        ensures fits { IsTrue result ↔ (length self.old.bytes + length piece.now ≤ self.old.room) }
        ensures yes { OnTrue result (self.new ≡ record self.old { bytes = self.old.bytes ++ piece.now }) }
        ensures no { OnFalse result (self.new ≡ self.old) }
    {
        if self.room - self.bytes.len() < piece.len() {
            return false;
        }
        self.bytes.extend_from_slice(piece).unwrap();
        true
    }

    fn bytes(&self) -> &[u8]
        ensures { result.now ≡ self.now.bytes }
    {
        &self.bytes
    }
}

/// A sink that has no fault. It keeps the pieces that fit in its room. One that does not fit is
/// dropped, and from then on the sink does not tell what it took.
#[derive(Drop)]
pub struct SureSink {
    buffer: Buffer,
    dropped: bool,
}

impl Model for SureSink {
    ghost use Rattle.pw_io.specs.Memory.{SureSinkState};

    ghost Value = { SureSinkState };

    ghost view = { λ s. record { kept = s.buffer.bytes; room = s.buffer.room; dropped = s.dropped } };
}

impl SureSink {
    /// An empty sink with room for so many bytes.
    pub fn new(alloc: Global, room: usize) -> Result<SureSink, NoMemory>
        ensures { IfOk result (λ sink. sink ≡ record { kept = []; room = room; dropped = false }) }
    {
        Ok(SureSink {
            buffer: Buffer::new(alloc, room)?,
            dropped: false,
        })
    }

    /// The pieces that were kept. Takes no memory.
    pub fn bytes(&self) -> &[u8]
        ensures { result.now ≡ self.now.kept }
    {
        self.buffer.bytes()
    }
}

impl Sink for SureSink {
    ghost taken = { kept_told };

    ghost faults = { λ _. 0 };

    /// Takes no memory.
    fn put(&mut self, piece: &[u8]) -> Result<(), Failed>
        ensures taken { IsOk result }
        ensures kept { length self.old.kept + length piece.now ≤ self.old.room →
            self.new ≡ record self.old { kept = self.old.kept ++ piece.now } }
        ensures dropped { self.old.room < length self.old.kept + length piece.now →
            self.new ≡ record self.old { dropped = true } }
        ensures ok { OnOk result (Appends (kept_told self.old) (kept_told self.new) piece.now) }
        ensures failed { OnErr result (AppendsPart (kept_told self.old) (kept_told self.new) piece.now) }
        ensures empty { piece.now ≡ [] → IsOk result }
        ensures cause { HasCause 0 0 result }
    {
        if !self.buffer.append(piece) {
            self.dropped = true;
        }
        Ok(())
    }
}

/// A sink that fails at given calls, and where a piece does not fit. Calls are numbered from 1, those
/// with an empty piece among them.
#[derive(Drop)]
pub struct MemSink {
    buffer: Buffer,
    tally: Tally,
    fails: Vec<u64>,
}

impl Model for MemSink {
    ghost use Rattle.pw_io.specs.Memory.{MemSinkState};

    ghost Value = { MemSinkState };

    ghost view = { λ s. record {
      bytes = s.buffer.bytes;
      room = s.buffer.room;
      calls = s.tally.calls;
      faults = s.tally.faults;
      fails = s.fails.items;
    } };
}

impl MemSink {
    /// An empty sink with room for so many bytes, that fails at the calls whose numbers stand in `fails`.
    pub fn new(alloc: Global, room: usize, fails: &[u64]) -> Result<MemSink, NoMemory>
        ensures { IfOk result (λ sink.
            sink ≡ record { bytes = []; room = room; calls = 0; faults = 0; fails = fails.now }) }
    {
        Ok(MemSink {
            buffer: Buffer::new(alloc, room)?,
            tally: Tally::new(),
            fails: fails.to_vec(alloc)?,
        })
    }

    /// The bytes that were taken. Takes no memory.
    pub fn bytes(&self) -> &[u8]
        ensures { result.now ≡ self.now.bytes }
    {
        self.buffer.bytes()
    }
}

impl Sink for MemSink {
    ghost taken = { λ s. Some s.bytes };

    ghost faults = { λ s. s.faults };

    /// Takes no memory.
    fn put(&mut self, piece: &[u8]) -> Result<(), Failed>
        ensures fails { IsErr result ↔ Refuses self.old piece.now }
        ensures taken { OnOk result
            (self.new ≡ record self.old { bytes = self.old.bytes ++ piece.now; calls = next_call self.old.calls }) }
        ensures refused { OnErr result
            (self.new ≡ record self.old { calls = next_call self.old.calls; faults = next_fault self.old.faults }) }
        ensures ok { OnOk result (Appends (Some self.old.bytes) (Some self.new.bytes) piece.now) }
        ensures failed { OnErr result (AppendsPart (Some self.old.bytes) (Some self.new.bytes) piece.now) }
        ensures empty { piece.now ≡ [] → IsOk result }
        ensures cause { HasCause self.old.faults self.new.faults result }
    {
        let call = self.tally.next_call();
        if piece.is_empty() {
            return Ok(());
        }
        if has_call(&self.fails, call) || !self.buffer.append(piece) {
            self.tally.count_fault();
            return Err(Failed);
        }
        Ok(())
    }
}

/// A sink that takes every piece and keeps none. It has no fault, and does not tell what it took.
#[derive(Clone, Copy)]
pub struct DropSink;

impl DropSink {
    /// Takes no memory.
    pub fn new() -> DropSink {
        DropSink
    }
}

impl Sink for DropSink {
    ghost taken = { λ _. None };

    ghost faults = { λ _. 0 };

    /// Takes no memory.
    fn put(&mut self, _piece: &[u8]) -> Result<(), Failed>
        ensures taken { IsOk result }
        ensures ok { OnOk result (Appends None None _piece.now) }
        ensures failed { OnErr result (AppendsPart None None _piece.now) }
        ensures empty { _piece.now ≡ [] → IsOk result }
        ensures cause { HasCause 0 0 result }
    {
        Ok(())
    }
}
