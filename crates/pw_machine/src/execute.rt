// The table from each form of instruction to its effect, and the step at front.

ghost use Rattle.std.specs.Prelude.{◌≡◌};
ghost use Rattle.pw_inst.specs.InstructionTable.{IsInRange};
ghost use Rattle.pw_machine.specs.Effect.{executed, effect_of};
ghost use Rattle.pw_machine.specs.Outcomes.{Does};

use crate::ends::Halt;
use crate::processor::{Outcome, Processor};
use pw_inst::Inst;

/// One step: looks at front, and does what the word there says. No memory is taken.
#[tactic(auto, unfolding(crate::specs::Effect::effect_of))]
#[inline(always)]
pub(crate) fn step(p: &mut Processor) -> Outcome
    ensures { Does (effect_of p.old) p.old result p.new }
{
    let front = p.front();
    if !p.is_in_text(front) {
        return p.halt(Halt::BadBranch);
    }
    if p.is_nullified() {
        p.advance();
        return Outcome::Goes;
    }
    match p.instruction_at(front) {
        None => p.halt(Halt::Illegal),
        Some(inst) => execute(p, inst),
    }
}

/// Does what an instruction says.
#[tactic(auto, unfolding(pw_inst::specs::InstructionTable::IsInRange))]
#[inline(always)]
pub(crate) fn execute(p: &mut Processor, inst: Inst) -> Outcome
    requires { IsInRange inst }
    ensures { Does (executed p.old inst) p.old result p.new }
{
    match inst {
        Inst::Ldb { im, b, t } => p.load_byte(im, b, t),
        Inst::Ldh { im, b, t } => p.load_half(im, b, t),
        Inst::Ldw { im, b, t } => p.load_word(im, b, t),
        Inst::Ldo { im, b, t } => p.load_offset(im, b, t),
        Inst::Stb { r, im, b } => p.store_byte(r, im, b),
        Inst::Sth { r, im, b } => p.store_half(r, im, b),
        Inst::Stw { r, im, b } => p.store_word(r, im, b),
        Inst::Ldil { im, t } => p.load_left(im, t),
        Inst::And { r1, r2, t } => p.and(r1, r2, t),
        Inst::Or { r1, r2, t } => p.or(r1, r2, t),
        Inst::Xor { r1, r2, t } => p.exclusive_or(r1, r2, t),
        Inst::Sub { r1, r2, t } => p.subtract(r1, r2, t),
        Inst::Addl { r1, r2, t } => p.add(r1, r2, t),
        Inst::Vshd { r1, r2, t } => p.shift_double(r1, r2, t),
        Inst::Mtctl { r } => p.set_shift(r),
        Inst::Comclr { c, f, r1, r2, t } => p.compare_and_clear(c, f, r1, r2, t),
        Inst::Subi { im, r, t } => p.subtract_from(im, r, t),
        Inst::Extru { r, p: at, len, t } => p.extract(r, at, len, t),
        Inst::Extrs { r, p: at, len, t } => p.extract_signed(r, at, len, t),
        Inst::Zdep { r, p: at, len, t } => p.deposit(r, at, len, t),
        Inst::Combt { c, r1, r2, disp } => p.branch_where(c, r1, r2, disp),
        Inst::Combf { c, r1, r2, disp } => p.branch_unless(c, r1, r2, disp),
        Inst::Bl { disp, t, n } => p.branch_and_link(disp, t, n),
        Inst::Bv { b, n } => p.branch_to(b, n),
        Inst::Ble { b, n } => p.link_and_branch_to(b, n),
        Inst::Break { im5, im13 } => p.ask(im5, im13),
    }
}
