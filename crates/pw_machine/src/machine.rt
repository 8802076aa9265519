// The machine as its callers see it.

ghost use Rattle.std.specs.Prelude.{◌≡◌, ◌+◌, ◌%◌, ◌<◌, ◌≢◌, ◌⊎◌, ◌↔◌, IfOk, IfSome, IsNone, Ok};
ghost use Rattle.pw_value.specs.Limits.{memory_size};
ghost use Rattle.pw_image.specs.declared.image.Image.{Image as AnyImage};
ghost use Rattle.pw_image.specs.Image.{Contents, IsImageFile};
ghost use Rattle.pw_image.specs.Reading.{image_file_at};
ghost use Rattle.pw_image.specs.Loading.{GivesLoad, loaded_as};
ghost use Rattle.pw_machine.specs.Core as core;
ghost use Rattle.pw_machine.specs.Stops.{loaded, IsRun, IsBeforeBreak, StaysStopped, ReadCount, WriteCount, end_of};

use crate::ends::Stop;
use crate::processor::Processor;
use crate::run;
use pw_image::{Image, LoadError, read_image};
use pw_io::{Sink, Source};
use pw_value::limits::MEMORY_SIZE;
use std::alloc::Global;
use std::marker::Model;

/// A machine: registers, 64 MiB of memory, and how many steps it took since the start.
#[derive(Drop)]
pub struct Machine {
    processor: Processor,
    steps: u128,
}

impl Model for Machine {
    ghost use Rattle.pw_machine.specs.Stops.{Snapshot};

    ghost Value = { Snapshot };

    ghost view = { λ m. record { core = m.processor; steps = m.steps } };
}

impl Machine {
    /// The machine at the start of the program in an image file. It takes all memory that the run needs.
    /// A fault is the first field of the file, in order, that is short or breaks its rule.
    pub fn load(alloc: Global, image: &[u8]) -> Result<Machine, LoadError>
        // What is loaded stands at the start of an image whose file the bytes are.
        ensures found { IfOk result (λ machine. (c : Contents AnyImage) × IsImageFile image.now c × (machine ≡ loaded c.value)) }
        // The file of an image is loaded, unless memory runs out.
        ensures only { (c : Contents AnyImage) → IsImageFile image.now c → GivesLoad (λ machine. machine) result (Ok (loaded c.value)) }
        // Which fault it is.
        ensures exact { GivesLoad (λ machine. machine) result (loaded_as loaded (image_file_at image.now)) }
    {
        Machine::load_alone(alloc, image)
    }

    /// The machine at the start of an image, by what reading its file finds.
    fn load_alone(alloc: Global, image: &[u8]) -> Result<Machine, LoadError>
        ensures { GivesLoad (λ machine. machine) result (loaded_as loaded (image_file_at image.now)) }
    {
        let Image { memory, .. } = read_image(alloc, image)?;
        let processor = Processor::start(
            alloc,
            memory.entry,
            memory.words.as_slice(),
            memory.data_size,
            memory.items.as_slice(),
        )?;
        Ok(Machine {
            processor,
            steps: 0,
        })
    }

    /// Runs the program for at most `budget` steps, reading from `input` and writing to `out`. Takes no
    /// memory.
    ///
    /// `Spent` says that `budget` steps ran in this call and the run has not stopped; a stop at the last
    /// step is that stop. After `Spent`, `ReadFault` or `WriteFault` the next call goes on, the machine
    /// standing before its BREAK after a fault. After any other answer each later call answers the same,
    /// and takes no step.
    pub fn run<I: Source, O: Sink>(&mut self, input: &mut I, out: &mut O, budget: u64) -> Stop
        ensures run { IsRun self.old (I.rest input.old) (O.taken out.old) budget result self.new (I.rest input.new) (O.taken out.new) }
        ensures stopped { self.new.core.stopped ≡ end_of result }
        ensures before_break { IsBeforeBreak result self.new.core }
        ensures stays_stopped { StaysStopped self.old result self.new input.old input.new out.old out.new }

        ensures read { ReadCount (I.faults input.old) (I.faults input.new) result }
        ensures write { WriteCount (O.faults out.old) (O.faults out.new) result }
    {
        let ran = run::run(&mut self.processor, input, out, budget);
        self.steps = self.steps.saturating_add(ran.steps.into());
        ran.stop
    }

    /// The word in general register r. Takes no memory.
    pub fn reg(&self, r: u8) -> u32
        requires { r < 32 }
        ensures { result ≡ core.register self.now.core r }
    {
        self.processor.register(r)
    }

    /// The word in memory at an address; `None` exactly where the address is no multiple of 4 or the
    /// word would pass the memory's end. Takes no memory.
    pub fn word_at(&self, address: u32) -> Option<u32>
        ensures none { IsNone result ↔ ((address % 4 ≢ 0) ⊎ (memory_size < address + 4)) }
        ensures word { IfSome result (λ word. word ≡ core.word_at self.now.core.memory address) }
    {
        if address % 4 != 0 || address > MEMORY_SIZE - 4 {
            return None;
        }
        Some(self.processor.word_at(address))
    }

    /// The address of the next instruction. Takes no memory.
    pub fn front(&self) -> u32
        ensures { result ≡ self.now.core.front }
    {
        self.processor.front()
    }

    /// Whether the next instruction is nullified: its step does nothing but clear the bit. Takes no memory.
    pub fn is_nullified(&self) -> bool
        ensures { result ≡ self.now.core.nullify }
    {
        self.processor.is_nullified()
    }

    /// How many steps the machine took since the start; the count stays at the greatest 128-bit number.
    /// Takes no memory.
    pub fn steps(&self) -> u128
        ensures { result ≡ self.now.steps }
    {
        self.steps
    }
}
