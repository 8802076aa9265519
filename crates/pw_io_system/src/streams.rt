//! The standard streams as a source and a sink, over the library's readers and writers: what they give and append is
//! said by what a reader or a writer tells. The system's tell nothing.

ghost use Rattle.std.specs.Prelude.{◌≡◌, ◌==◌, [], None, IsOk, IfOk, OnOk, OnErr, length, drop, slice_get};
ghost use Rattle.std.specs.Io.Buffered.{writer_contents};
ghost use Rattle.std.specs.Io.KnownBytes.{Appends, Consumes, IsAtEnd, Keeps, prepend_known};
ghost use Rattle.pw_io.specs.Faults.{HasCause, Rose};
ghost use Rattle.pw_io.specs.Streams.{Appends as Taken, AppendsPart as TakenInPart};
ghost use Rattle.pw_io_system.specs.Sinks.{kept_back};
ghost use Rattle.pw_io_system.specs.Streams.{AppendsPrefix};

use pw_io::{Failed, Sink, Source};
use std::io::{self, BufWriter, Read, Write};
use std::marker::Model;

/// A count of faults with one more, up to the greatest count.
pub fn raised(faults: u64) -> u64
    ensures { Rose faults result }
{
    faults.saturating_add(1)
}

/// How many bytes are read at once, at most.
const BLOCK: usize = 4096;

/// Bytes that were read at once. It is seen as those that are still to be given.
#[derive(Drop)]
struct Block {
    bytes: [u8; BLOCK],
    next: usize,
    end: usize,
}

impl Model for Block {
    ghost use Rattle.std.specs.Prelude.{ℕ, List, ◌≤◌, take, drop};
    ghost use Rattle.pw_io_system.specs.declared.streams.TheConstants.{BLOCK};

    ghost Value = { List ℕ };

    ghost view = { λ b. drop b.next (take b.end b.bytes) };

    ghost invariant = { λ b. b.end ≤ BLOCK };
}

impl Block {
    fn new() -> Block
        ensures { result ≡ [] }
    {
        Block {
            bytes: [0; BLOCK],
            next: 0,
            end: 0,
        }
    }

    /// What the reader gives at once, which is nothing only at its end.
    fn read<R: Read>(reader: &mut R) -> io::Result<Block>
        ensures bytes { IfOk result (λ block. Consumes (R.remaining reader.old) (R.remaining reader.new) block) }
        ensures end { IfOk result (λ block. block ≡ [] → IsAtEnd (R.remaining reader.new)) }
        ensures failed { OnErr result (Keeps (R.remaining reader.old) (R.remaining reader.new)) }
    {
        let mut bytes = [0; BLOCK];
        let end = reader.read(&mut bytes)?;
        Ok(Block {
            bytes,
            next: 0,
            end,
        })
    }

    fn is_empty(&self) -> bool
        ensures { result ≡ (length self.now == 0) }
    {
        self.next >= self.end
    }

    fn take_first(&mut self) -> Option<u8>
        ensures first { result ≡ slice_get self.old 0 }
        ensures rest { self.new ≡ drop 1 self.old }
    {
        let byte = self.bytes[..self.end].get(self.next).copied();
        if byte.is_some() {
            self.next += 1;
        }
        byte
    }
}

/// A source that reads its reader by blocks. Its rest is that of the block and of the reader behind it.
#[derive(Drop)]
pub struct StdSource<R> {
    reader: R,
    block: Block,
    faults: u64,
}

impl<R: Read> StdSource<R> {
    /// A source over a reader, of which nothing is read ahead so far.
    pub fn new(reader: R) -> Self
        ensures reader { result.reader ≡ reader }
        ensures block { result.block ≡ [] }
        ensures faults { result.faults ≡ 0 }
    {
        StdSource {
            reader,
            block: Block::new(),
            faults: 0,
        }
    }
}

impl<R: Read> Source for StdSource<R> {
    ghost rest = { λ source. prepend_known source.block (R.remaining source.reader) };

    ghost faults = { λ source. source.faults };

    fn next(&mut self) -> Result<Option<u8>, Failed> {
        if self.block.is_empty() {
            match Block::read(&mut self.reader) {
                Ok(block) => self.block = block,
                Err(_) => {
                    self.faults = raised(self.faults);
                    return Err(Failed);
                }
            }
        }
        Ok(self.block.take_first())
    }
}

/// A sink that hands each piece to its writer, which may keep it back in a block until it is flushed. As a sink it tells
/// nothing, since a writer may begin to tell; what is appended is said by what the writer tells.
#[derive(Drop)]
pub struct StdSink<W> {
    writer: W,
    faults: u64,
}

impl<W: Write> StdSink<W> {
    /// A sink over a writer. It has no fault so far.
    pub fn new(writer: W) -> Self
        ensures writer { result.writer ≡ writer }
        ensures faults { result.faults ≡ 0 }
    {
        StdSink { writer, faults: 0 }
    }
}

impl<W: Write + Drop> StdSink<BufWriter<W>> {
    /// Has the writer write out what it keeps back, of which nothing is left after `Ok`. A fault counts, and nothing is lost by
    /// it.
    pub fn flush(&mut self) -> Result<(), Failed>
        ensures bytes { Keeps (writer_contents W.contents self.old.writer) (writer_contents W.contents self.new.writer) }
        ensures whole { OnOk result (kept_back self.new ≡ []) }
        ensures cause { HasCause self.old.faults self.new.faults result }
    {
        match self.writer.flush() {
            Ok(()) => Ok(()),
            Err(_) => {
                self.faults = raised(self.faults);
                Err(Failed)
            }
        }
    }
}

/// Writes a whole piece, or after a fault a proper prefix of it; a write that takes nothing is a fault.
fn write_whole<W: Write>(writer: &mut W, piece: &[u8]) -> Result<(), Failed>
    ensures whole { OnOk result (Appends (W.contents writer.old) (W.contents writer.new) piece.now) }
    ensures failed { OnErr result (AppendsPrefix (W.contents writer.old) (W.contents writer.new) piece.now) }
    ensures empty { length piece.now ≡ 0 → IsOk result }
{
    let mut done = 0;
    while done < piece.len() {
        match writer.write(&piece[done..]) {
            Ok(0) | Err(_) => return Err(Failed),
            Ok(count) => done += count,
        }
    }
    Ok(())
}

impl<W: Write> Sink for StdSink<W> {
    ghost taken = { λ _. None };

    ghost faults = { λ sink. sink.faults };

    fn put(&mut self, piece: &[u8]) -> Result<(), Failed>
        ensures whole { OnOk result (Appends (W.contents self.old.writer) (W.contents self.new.writer) piece.now) }
        ensures front { OnErr result (AppendsPrefix (W.contents self.old.writer) (W.contents self.new.writer) piece.now) }
        ensures ok { OnOk result (Taken None None piece.now) }
        ensures failed { OnErr result (TakenInPart None None piece.now) }
        ensures empty { piece.now ≡ [] → IsOk result }
        ensures cause { HasCause self.old.faults self.new.faults result }
    {
        let written = write_whole(&mut self.writer, piece);
        if written.is_err() {
            self.faults = raised(self.faults);
        }
        written
    }
}
