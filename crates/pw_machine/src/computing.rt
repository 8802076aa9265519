// Instructions that compute a word in a register, and branches on conditions.

ghost use Rattle.std.specs.Prelude.{◌≡◌, ◌<◌};
ghost use Rattle.pw_inst.specs.Fields.{IsSigned};
ghost use Rattle.pw_inst.specs.InstructionTable.{IsBitField, IsCondition};
ghost use Rattle.pw_machine.specs.Effect.{executed};
ghost use Rattle.pw_machine.specs.Outcomes.{Does};

use crate::bits;
use crate::processor::{Outcome, Processor};
use pw_inst::Inst;

impl Processor {
    /// LDO.
    #[inline(always)]
    pub(crate) fn load_offset(&mut self, im: i32, b: u8, t: u8) -> Outcome
        requires base { b < 32 }
        requires target { t < 32 }
        ensures { Does (executed self.old (Inst.Ldo im b t)) self.old result self.new }
    {
        self.put(t, self.address(b, im))
    }

    /// LDIL.
    #[inline(always)]
    pub(crate) fn load_left(&mut self, im: u32, t: u8) -> Outcome
        requires small { im < 2097152 }
        requires target { t < 32 }
        ensures { Does (executed self.old (Inst.Ldil im t)) self.old result self.new }
    {
        self.put(t, im * 2048)
    }

    /// AND.
    #[inline(always)]
    pub(crate) fn and(&mut self, r1: u8, r2: u8, t: u8) -> Outcome
        requires first { r1 < 32 }
        requires second { r2 < 32 }
        requires target { t < 32 }
        ensures { Does (executed self.old (Inst.And r1 r2 t)) self.old result self.new }
    {
        self.put(t, self.register(r1) & self.register(r2))
    }

    /// OR.
    #[inline(always)]
    pub(crate) fn or(&mut self, r1: u8, r2: u8, t: u8) -> Outcome
        requires first { r1 < 32 }
        requires second { r2 < 32 }
        requires target { t < 32 }
        ensures { Does (executed self.old (Inst.Or r1 r2 t)) self.old result self.new }
    {
        self.put(t, self.register(r1) | self.register(r2))
    }

    /// XOR.
    #[inline(always)]
    pub(crate) fn exclusive_or(&mut self, r1: u8, r2: u8, t: u8) -> Outcome
        requires first { r1 < 32 }
        requires second { r2 < 32 }
        requires target { t < 32 }
        ensures { Does (executed self.old (Inst.Xor r1 r2 t)) self.old result self.new }
    {
        self.put(t, self.register(r1) ^ self.register(r2))
    }

    /// SUB.
    #[inline(always)]
    pub(crate) fn subtract(&mut self, r1: u8, r2: u8, t: u8) -> Outcome
        requires first { r1 < 32 }
        requires second { r2 < 32 }
        requires target { t < 32 }
        ensures { Does (executed self.old (Inst.Sub r1 r2 t)) self.old result self.new }
    {
        self.put(t, self.register(r1).wrapping_sub(self.register(r2)))
    }

    /// ADDL.
    #[inline(always)]
    pub(crate) fn add(&mut self, r1: u8, r2: u8, t: u8) -> Outcome
        requires first { r1 < 32 }
        requires second { r2 < 32 }
        requires target { t < 32 }
        ensures { Does (executed self.old (Inst.Addl r1 r2 t)) self.old result self.new }
    {
        self.put(t, self.register(r1).wrapping_add(self.register(r2)))
    }

    /// SUBI.
    #[inline(always)]
    pub(crate) fn subtract_from(&mut self, im: i32, r: u8, t: u8) -> Outcome
        requires source { r < 32 }
        requires target { t < 32 }
        ensures { Does (executed self.old (Inst.Subi im r t)) self.old result self.new }
    {
        self.put(t, im.cast_unsigned().wrapping_sub(self.register(r)))
    }

    /// EXTRU.
    #[inline(always)]
    pub(crate) fn extract(&mut self, r: u8, p: u8, len: u8, t: u8) -> Outcome
        requires source { r < 32 }
        requires bits { IsBitField p len }
        requires target { t < 32 }
        ensures { Does (executed self.old (Inst.Extru r p len t)) self.old result self.new }
    {
        self.put(t, bits::extracted(self.register(r), p, len))
    }

    /// EXTRS.
    #[inline(always)]
    pub(crate) fn extract_signed(&mut self, r: u8, p: u8, len: u8, t: u8) -> Outcome
        requires source { r < 32 }
        requires bits { IsBitField p len }
        requires target { t < 32 }
        ensures { Does (executed self.old (Inst.Extrs r p len t)) self.old result self.new }
    {
        self.put(t, bits::extracted_signed(self.register(r), p, len))
    }

    /// ZDEP.
    #[inline(always)]
    pub(crate) fn deposit(&mut self, r: u8, p: u8, len: u8, t: u8) -> Outcome
        requires source { r < 32 }
        requires bits { IsBitField p len }
        requires target { t < 32 }
        ensures { Does (executed self.old (Inst.Zdep r p len t)) self.old result self.new }
    {
        self.put(t, bits::deposited(self.register(r), p, len))
    }

    /// COMCLR.
    #[inline(always)]
    pub(crate) fn compare_and_clear(&mut self, c: u8, f: bool, r1: u8, r2: u8, t: u8) -> Outcome
        requires first { r1 < 32 }
        requires second { r2 < 32 }
        requires target { t < 32 }
        ensures { Does (executed self.old (Inst.Comclr c f r1 r2 t)) self.old result self.new }
    {
        let holds = bits::condition(c, self.register(r1), self.register(r2));
        self.clear(holds != f, t)
    }

    /// COMBT.
    #[inline(always)]
    pub(crate) fn branch_where(&mut self, c: u8, r1: u8, r2: u8, disp: i32) -> Outcome
        requires first { r1 < 32 }
        requires second { r2 < 32 }
        ensures { Does (executed self.old (Inst.Combt c r1 r2 disp)) self.old result self.new }
    {
        let holds = bits::condition(c, self.register(r1), self.register(r2));
        self.branch_if(holds, disp)
    }

    /// COMBF.
    #[inline(always)]
    pub(crate) fn branch_unless(&mut self, c: u8, r1: u8, r2: u8, disp: i32) -> Outcome
        requires first { r1 < 32 }
        requires second { r2 < 32 }
        ensures { Does (executed self.old (Inst.Combf c r1 r2 disp)) self.old result self.new }
    {
        let holds = bits::condition(c, self.register(r1), self.register(r2));
        self.branch_if(!holds, disp)
    }
}
