// The processor: the machine apart from its input and output. One step of it is `step`. The text is decoded once,
// when a program starts: no store reaches it.

ghost use Rattle.std.specs.Prelude.{◌≡◌, ◌+◌, ◌-◌, ◌*◌, ◌^◌, ◌%◌, ◌<◌, ◌≤◌, IfNone, IfOk, IfSome, length};
ghost use Rattle.std.specs.Bool.{OnTrue};
ghost use Rattle.pw_value.specs.Limits.{word_limit, text_start, memory_size};
ghost use Rattle.pw_inst.specs.Registers.{argument_register};
ghost use Rattle.pw_inst.specs.InstructionTable.{IsInRange, decoded};

use crate::ends::{End, Halt};
use crate::{bits, start};
use pw_image::{DataItem, data_start};
use pw_inst::{ANSWER, ARGUMENT, Inst, ROUTINE_LINK, STACK_POINTER};
use pw_io::NoMemory;
use pw_pages::{PAGE_BYTES, Pages};
use pw_value::limits::{MEMORY_SIZE, TEXT_START};
use std::alloc::Global;
use std::marker::Model;

/// What a step did to the processor: it went on, or left all as it was and asks for input or output, or ends the run.
#[derive(Clone, Copy)]
pub enum Outcome {
    Goes,
    Reads,
    Writes(u8),
    Stops(End),
}

/// The machine apart from its input and output: its registers, program counters, memory, and why it has stopped, if it has.
#[derive(Drop)]
pub struct Processor {
    registers: [u32; 32],
    front: u32,
    back: u32,
    nullify: bool,
    shift: u32,
    memory: Pages,
    // what stands for each word of the text
    code: Vec<Option<Inst>>,
    text: u32,
    data_start: u32,
    stopped: Option<End>,
}

impl Model for Processor {
    ghost use Rattle.std.specs.Prelude.{◌≡◌, ◌+◌, ◌*◌, ◌<◌, ◌≤◌, length, vec_len, slice_index};
    ghost use Rattle.pw_value.specs.Limits.{word_limit, text_start, memory_size};
    ghost use Rattle.pw_machine.specs.Core.{Core};
    ghost use Rattle.pw_machine.specs.Decoded.{IsTextOf};

    ghost Value = { Core };

    ghost view = { λ p. record { registers = p.registers; front = p.front; back = p.back; nullify = p.nullify; shift = p.shift; memory = p.memory; text = p.text; data_start = p.data_start; stopped = p.stopped } };

    ghost invariant = { λ p. (slice_index p.registers 0 ≡ 0) × (p.shift < 32) × (length p.memory ≡ memory_size) × (p.text ≤ word_limit) × (vec_len p.code ≡ p.text) × (text_start + 4 * p.text ≤ p.data_start) × IsTextOf p.memory p.code.items };
}

impl Processor {
    ghost use Rattle.pw_image.specs.Image.{AreItems, data_start};
    ghost use Rattle.pw_machine.specs.Start.{start_core};

    /// The processor at the start of a program: its entry, its words, and its `data_size` bytes of data,
    /// which are 0 but for the items.
    #[tactic(auto, unfolding(crate::specs::Start::start_core))]
    pub(crate) fn start(
        alloc: Global,
        entry: u32,
        words: &[u32],
        data_size: u32,
        items: &[DataItem],
    ) -> Result<Processor, NoMemory>
        requires few_words { length words.now ≤ word_limit }
        requires data_fits { data_start (length words.now) + data_size ≤ memory_size }
        requires items { AreItems data_size 0 items.now }
        ensures { IfOk result (λ p. p ≡ start_core entry words.now data_size items.now) }
    {
        let text = words.len() as u32;
        let data_start = data_start(text) as u32;
        let mut registers = [0; 32];
        registers[STACK_POINTER as usize] = start::stack_start(data_start + data_size);
        let code = start::decoded(alloc, words)?;
        let mut memory = Pages::blank(alloc, MEMORY_SIZE as usize / PAGE_BYTES)?;
        memory.put_words(TEXT_START as usize, words);
        start::put_items(&mut memory, data_start as usize, data_size, items);
        Ok(Processor {
            registers,
            front: entry,
            back: entry.wrapping_add(4),
            nullify: false,
            shift: 0,
            memory,
            code,
            text,
            data_start,
            stopped: None,
        })
    }

    ghost use Rattle.pw_machine.specs.Core.{register, with_register, advanced, moved, next, byte_at, half_at, word_at, with_byte, with_half, with_word};
    ghost use Rattle.pw_machine.specs.Effect.{Goes, puts, halts, address, access_fault, is_in_text, target, branches_if, breaks, executed};
    ghost use Rattle.pw_machine.specs.Outcomes.{Does};
    ghost use Rattle.pw_machine.specs.Run.{answered};

    /// The word in a general register.
    #[inline(always)]
    pub(crate) fn register(&self, r: u8) -> u32
        requires { r < 32 }
        ensures { result ≡ register self.now r }
    {
        self.registers[r as usize]
    }

    /// Puts a word into a general register; register 0 stays 0.
    #[inline(always)]
    pub(crate) fn set_register(&mut self, r: u8, value: u32)
        requires { r < 32 }
        ensures { self.new ≡ with_register self.old r value }
    {
        if r != 0 {
            self.registers[r as usize] = value;
        }
    }

    /// The address 4 beyond back.
    #[inline(always)]
    fn next(&self) -> u32
        ensures { result ≡ next self.now }
    {
        self.back.wrapping_add(4)
    }

    /// Goes on to the instruction at back, and from there to the one at `after`.
    #[inline(always)]
    fn go(&mut self, after: u32, nullify: bool)
        ensures { self.new ≡ moved self.old after nullify }
    {
        self.front = self.back;
        self.back = after;
        self.nullify = nullify;
    }

    /// Goes on with no branch.
    #[inline(always)]
    pub(crate) fn advance(&mut self)
        ensures { self.new ≡ advanced self.old }
    {
        let after = self.next();
        self.go(after, false);
    }

    /// Puts a word into a register, and goes on.
    #[inline(always)]
    pub(crate) fn put(&mut self, t: u8, value: u32) -> Outcome
        requires { t < 32 }
        ensures { Does (puts self.old t value) self.old result self.new }
    {
        self.advance();
        self.set_register(t, value);
        Outcome::Goes
    }

    /// The instruction at front halts the run.
    #[inline(always)]
    pub(crate) fn halt(&self, halt: Halt) -> Outcome
        ensures { Does (halts self.now halt) self.now result self.now }
    {
        Outcome::Stops(End::Halted(halt, self.front))
    }

    /// A base register plus a displacement.
    #[inline(always)]
    pub(crate) fn address(&self, b: u8, im: i32) -> u32
        requires { b < 32 }
        ensures { result ≡ address self.now b im }
    {
        self.register(b).wrapping_add_signed(im)
    }

    /// Why an access of `size` bytes is refused, if it is.
    #[inline(always)]
    fn access_fault(&self, a: u32, size: u32, stores: bool) -> Option<Halt>
        requires small { size ≤ 4 }
        requires positive { 0 < size }
        ensures fault { result ≡ access_fault self.now a size stores }
        ensures aligned { IfNone result (a % size ≡ 0) }
        ensures within { IfNone result (a + size ≤ memory_size) }
        ensures above_text { IfNone result (OnTrue stores (self.now.data_start ≤ a)) }
    {
        if a % size != 0 {
            return Some(Halt::Unaligned);
        }
        if a < TEXT_START || a > MEMORY_SIZE - size {
            return Some(Halt::OutOfMemoryRange);
        }
        if stores && a < self.data_start {
            return Some(Halt::TextWrite);
        }
        None
    }

    /// Whether an address is a multiple of 4 inside the text.
    #[inline(always)]
    pub(crate) fn is_in_text(&self, a: u32) -> bool
        ensures inside { result ≡ is_in_text self.now a }
        ensures aligned { OnTrue result (a % 4 ≡ 0) }
        ensures above { OnTrue result (text_start ≤ a) }
        ensures below { OnTrue result (a < text_start + 4 * self.now.text) }
    {
        a % 4 == 0 && TEXT_START <= a && a < TEXT_START + 4 * self.text
    }

    /// The instruction of the word at an address of the text, if it is one.
    #[inline(always)]
    pub(crate) fn instruction_at(&self, a: u32) -> Option<Inst>
        requires aligned { a % 4 ≡ 0 }
        requires above { text_start ≤ a }
        requires below { a < text_start + 4 * self.now.text }
        ensures table { result ≡ decoded (word_at self.now.memory a) }
        ensures in_range { IfSome result IsInRange }
    {
        self.code[(a - TEXT_START) as usize / 4]
    }

    /// The byte at an address.
    #[inline(always)]
    fn byte_at(&self, a: u32) -> u32
        requires { a < memory_size }
        ensures { result ≡ byte_at self.now.memory a }
    {
        self.memory.byte_at(a as usize)
    }

    /// The half word at an even address.
    #[inline(always)]
    fn half_at(&self, a: u32) -> u32
        requires aligned { a % 2 ≡ 0 }
        requires within { a + 2 ≤ memory_size }
        ensures { result ≡ half_at self.now.memory a }
    {
        self.memory.half_at(a as usize)
    }

    /// The word at an address that is a multiple of 4.
    #[inline(always)]
    pub(crate) fn word_at(&self, a: u32) -> u32
        requires aligned { a % 4 ≡ 0 }
        requires within { a + 4 ≤ memory_size }
        ensures { result ≡ word_at self.now.memory a }
    {
        self.memory.word_at(a as usize)
    }

    /// Puts the low byte of a word at an address behind the text.
    #[inline(always)]
    fn put_byte(&mut self, a: u32, value: u32)
        requires within { a < memory_size }
        requires above_text { self.old.data_start ≤ a }
        ensures { self.new ≡ record self.old { memory = with_byte self.old.memory a value } }
    {
        self.memory.put_byte(a as usize, value);
    }

    /// Puts the low half word of a word at an even address behind the text.
    #[inline(always)]
    fn put_half(&mut self, a: u32, value: u32)
        requires aligned { a % 2 ≡ 0 }
        requires within { a + 2 ≤ memory_size }
        requires above_text { self.old.data_start ≤ a }
        ensures { self.new ≡ record self.old { memory = with_half self.old.memory a value } }
    {
        self.memory.put_half(a as usize, value);
    }

    /// Puts a word at an address behind the text that is a multiple of 4.
    #[inline(always)]
    fn put_word(&mut self, a: u32, value: u32)
        requires aligned { a % 4 ≡ 0 }
        requires within { a + 4 ≤ memory_size }
        requires above_text { self.old.data_start ≤ a }
        ensures { self.new ≡ record self.old { memory = with_word self.old.memory a value } }
    {
        self.memory.put_word(a as usize, value);
    }

    /// LDB.
    #[inline(always)]
    pub(crate) fn load_byte(&mut self, im: i32, b: u8, t: u8) -> Outcome
        requires base { b < 32 }
        requires target { t < 32 }
        ensures { Does (executed self.old (Inst.Ldb im b t)) self.old result self.new }
    {
        let a = self.address(b, im);
        if let Some(halt) = self.access_fault(a, 1, false) {
            return self.halt(halt);
        }
        self.put(t, self.byte_at(a))
    }

    /// LDH.
    #[inline(always)]
    pub(crate) fn load_half(&mut self, im: i32, b: u8, t: u8) -> Outcome
        requires base { b < 32 }
        requires target { t < 32 }
        ensures { Does (executed self.old (Inst.Ldh im b t)) self.old result self.new }
    {
        let a = self.address(b, im);
        if let Some(halt) = self.access_fault(a, 2, false) {
            return self.halt(halt);
        }
        self.put(t, self.half_at(a))
    }

    /// LDW.
    #[inline(always)]
    pub(crate) fn load_word(&mut self, im: i32, b: u8, t: u8) -> Outcome
        requires base { b < 32 }
        requires target { t < 32 }
        ensures { Does (executed self.old (Inst.Ldw im b t)) self.old result self.new }
    {
        let a = self.address(b, im);
        if let Some(halt) = self.access_fault(a, 4, false) {
            return self.halt(halt);
        }
        self.put(t, self.word_at(a))
    }

    /// STB.
    #[inline(always)]
    pub(crate) fn store_byte(&mut self, r: u8, im: i32, b: u8) -> Outcome
        requires source { r < 32 }
        requires base { b < 32 }
        ensures { Does (executed self.old (Inst.Stb r im b)) self.old result self.new }
    {
        let a = self.address(b, im);
        if let Some(halt) = self.access_fault(a, 1, true) {
            return self.halt(halt);
        }
        self.put_byte(a, self.register(r));
        self.advance();
        Outcome::Goes
    }

    /// STH.
    #[inline(always)]
    pub(crate) fn store_half(&mut self, r: u8, im: i32, b: u8) -> Outcome
        requires source { r < 32 }
        requires base { b < 32 }
        ensures { Does (executed self.old (Inst.Sth r im b)) self.old result self.new }
    {
        let a = self.address(b, im);
        if let Some(halt) = self.access_fault(a, 2, true) {
            return self.halt(halt);
        }
        self.put_half(a, self.register(r));
        self.advance();
        Outcome::Goes
    }

    /// STW.
    #[inline(always)]
    pub(crate) fn store_word(&mut self, r: u8, im: i32, b: u8) -> Outcome
        requires source { r < 32 }
        requires base { b < 32 }
        ensures { Does (executed self.old (Inst.Stw r im b)) self.old result self.new }
    {
        let a = self.address(b, im);
        if let Some(halt) = self.access_fault(a, 4, true) {
            return self.halt(halt);
        }
        self.put_word(a, self.register(r));
        self.advance();
        Outcome::Goes
    }

    /// MTCTL.
    #[inline(always)]
    pub(crate) fn set_shift(&mut self, r: u8) -> Outcome
        requires { r < 32 }
        ensures { Does (executed self.old (Inst.Mtctl r)) self.old result self.new }
    {
        self.shift = self.register(r) % 32;
        self.advance();
        Outcome::Goes
    }

    /// VSHD.
    #[inline(always)]
    pub(crate) fn shift_double(&mut self, r1: u8, r2: u8, t: u8) -> Outcome
        requires first { r1 < 32 }
        requires second { r2 < 32 }
        requires target { t < 32 }
        ensures { Does (executed self.old (Inst.Vshd r1 r2 t)) self.old result self.new }
    {
        let value = bits::shifted(self.register(r1), self.register(r2), self.shift);
        self.put(t, value)
    }

    /// The address of a branch: the instruction's own + 8 + 4 * disp.
    #[inline(always)]
    fn target(&self, disp: i32) -> u32
        ensures { result ≡ target self.now disp }
    {
        let bytes = disp.cast_unsigned().wrapping_mul(4);
        self.front.wrapping_add(8).wrapping_add(bytes)
    }

    /// Puts 0 into a register, and goes on, the next instruction nullified or not.
    #[inline(always)]
    pub(crate) fn clear(&mut self, nullify: bool, t: u8) -> Outcome
        requires { t < 32 }
        ensures { Does (Goes (with_register (moved self.old (next self.old) nullify) t 0)) self.old result self.new }
    {
        let after = self.next();
        self.go(after, nullify);
        self.set_register(t, 0);
        Outcome::Goes
    }

    /// Branches, or goes on.
    #[inline(always)]
    pub(crate) fn branch_if(&mut self, taken: bool, disp: i32) -> Outcome
        ensures { Does (branches_if self.old taken disp) self.old result self.new }
    {
        let after = if taken {
            self.target(disp)
        } else {
            self.next()
        };
        self.go(after, false);
        Outcome::Goes
    }

    /// BL.
    #[inline(always)]
    pub(crate) fn branch_and_link(&mut self, disp: i32, t: u8, n: bool) -> Outcome
        requires { t < 32 }
        ensures { Does (executed self.old (Inst.Bl disp t n)) self.old result self.new }
    {
        let link = self.next();
        let after = self.target(disp);
        self.go(after, n);
        self.set_register(t, link);
        Outcome::Goes
    }

    /// BV.
    #[inline(always)]
    pub(crate) fn branch_to(&mut self, b: u8, n: bool) -> Outcome
        requires { b < 32 }
        ensures { Does (executed self.old (Inst.Bv b n)) self.old result self.new }
    {
        let after = self.register(b);
        self.go(after, n);
        Outcome::Goes
    }

    /// BLE.
    #[inline(always)]
    pub(crate) fn link_and_branch_to(&mut self, b: u8, n: bool) -> Outcome
        requires { b < 32 }
        ensures { Does (executed self.old (Inst.Ble b n)) self.old result self.new }
    {
        let link = self.next();
        let after = self.register(b);
        self.go(after, n);
        self.set_register(ROUTINE_LINK, link);
        Outcome::Goes
    }

    /// BREAK.
    #[inline(always)]
    pub(crate) fn ask(&self, im5: u8, im13: u16) -> Outcome
        ensures { Does (breaks self.now im5 im13) self.now result self.now }
    {
        match (im5, im13) {
            (0, 1) => Outcome::Reads,
            (0, 2) => Outcome::Writes(self.low_byte()),
            (0, 3) => Outcome::Stops(End::Ended(self.low_byte())),
            (0, 4) => Outcome::Stops(End::StackStop),
            _ => self.halt(Halt::BadBreak),
        }
    }

    /// The low byte of the first argument's register.
    fn low_byte(&self) -> u8
        ensures { result ≡ register self.now (argument_register 0) % 2 ^ 8 }
    {
        (self.register(ARGUMENT) % 0x100) as u8
    }

    /// The address of the next instruction.
    #[inline(always)]
    pub(crate) fn front(&self) -> u32
        ensures { result ≡ self.now.front }
    {
        self.front
    }

    /// Whether the next instruction is nullified.
    #[inline(always)]
    pub(crate) fn is_nullified(&self) -> bool
        ensures { result ≡ self.now.nullify }
    {
        self.nullify
    }

    /// How the run ended, once it has.
    pub(crate) fn stopped(&self) -> Option<End>
        ensures { result ≡ self.now.stopped }
    {
        self.stopped
    }

    /// Ends the run, and leaves all else as it is.
    pub(crate) fn stop(&mut self, end: End)
        ensures { self.new ≡ record self.old { stopped = Some end } }
    {
        self.stopped = Some(end);
    }

    /// Puts the answer of a BREAK into the register of a call's result, and goes on.
    pub(crate) fn answer(&mut self, value: u32)
        ensures { self.new ≡ answered self.old value }
    {
        self.advance();
        self.set_register(ANSWER, value);
    }
}
