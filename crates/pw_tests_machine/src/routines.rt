//! Cases of pw_milli: the routines on the machine. A program reads pairs of operands, calls a routine and writes
//! what it gave. The results are from gcc.

use crate::cases::Case;
use crate::machines::{machine, run};
use crate::pairs::PAIRS;
use pw_io::{SureSink, SureSource};
use pw_machine::Machine;
use pw_milli::{Routine, library};
use pw_rows::Text;
use std::alloc::Global;
use std::process::Abort;

/// What is asked of routines.
pub(crate) enum RoutineCase {
    /// How the program with a routine ends on all pairs, and whether it writes what a column of the table has.
    Results(&'static str, usize),
    /// The most steps of a routine's calls on all pairs, if each takes no more than a bound and changes scratch
    /// registers alone, and whether the memory is as before.
    Steps(&'static str, u32),
    /// How the program with the library's three functions ends on an input, and what it writes.
    Echo(&'static str),
}

/// Cases and their answers. A status of 300 is one of 44. The most steps are those of a simulation of the same words
/// in another language.
pub(crate) static CASES: [(RoutineCase, &str); 11] = [
    (RoutineCase::Results("$mul", 2), "Ended(44) true"),
    (RoutineCase::Results("$divu", 3), "Ended(44) true"),
    (RoutineCase::Results("$remu", 4), "Ended(44) true"),
    (RoutineCase::Results("$divs", 5), "Ended(44) true"),
    (RoutineCase::Results("$rems", 6), "Ended(44) true"),
    (RoutineCase::Steps("$mul", 240), "(Some(86), true)"),
    (RoutineCase::Steps("$divu", 512), "(Some(173), true)"),
    (RoutineCase::Steps("$remu", 512), "(Some(174), true)"),
    (RoutineCase::Steps("$divs", 512), "(Some(176), true)"),
    (RoutineCase::Steps("$rems", 512), "(Some(177), true)"),
    (
        RoutineCase::Echo("to be, or not"),
        "Ended(44) to be, or not",
    ),
];

impl Case for RoutineCase {
    fn answer<R: Abort>(&self, rt: &R, text: &mut Text) {
        match self {
            RoutineCase::Results(name, column) => push_results(rt, text, *name, *column),
            RoutineCase::Steps(name, bound) => push_steps(rt, text, *name, *bound),
            RoutineCase::Echo(input) => push_echo(rt, text, *input),
        }
    }
}

/// Puts 1001 to 1030 into the registers 1 to 30. Then, as long as there is input: reads four bytes into
/// register 3 and four into register 4, puts these into registers 26 and 25, calls the routine behind the
/// program through register 31 and writes the four bytes of register 29. Ends with status 300.
static CALLER: [u32; 72] = [
    0x340107d2, 0x340207d4, 0x340307d6, 0x340407d8, 0x340507da, 0x340607dc, 0x340707de, 0x340807e0,
    0x340907e2, 0x340a07e4, 0x340b07e6, 0x340c07e8, 0x340d07ea, 0x340e07ec, 0x340f07ee, 0x341007f0,
    0x341107f2, 0x341207f4, 0x341307f6, 0x341407f8, 0x341507fa, 0x341607fc, 0x341707fe, 0x34180800,
    0x34190802, 0x341a0804, 0x341b0806, 0x341c0808, 0x341d080a, 0x341e080c, 0x00002000, 0x801c4128,
    0x08000240, 0xd4630908, 0x0b830243, 0x00002000, 0xd4630908, 0x0b830243, 0x00002000, 0xd4630908,
    0x0b830243, 0x00002000, 0xd4630908, 0x0b830243, 0x00002000, 0xd4840908, 0x0b840244, 0x00002000,
    0xd4840908, 0x0b840244, 0x00002000, 0xd4840908, 0x0b840244, 0x00002000, 0xd4840908, 0x0b840244,
    0x0803025a, 0x08040259, 0xebe00060, 0x08000240, 0xd3ba18f8, 0x00004000, 0xd3ba19f8, 0x00004000,
    0xd3ba1af8, 0x00004000, 0xd3ba1bf8, 0x00004000, 0xe81f1ec5, 0x08000240, 0x341a0258, 0x00006000,
];

/// Where the caller's routine begins, and where it returns to.
const ROUTINE: u32 = 4096 + 4 * 72;

const RETURN: u32 = 4096 + 4 * 60;

/// Reads a byte by `getchar`, and as long as there is one, writes it by `putchar`; then calls `exit` with 300.
/// The three stand behind the program in the order of the library.
static ECHO: [u32; 12] = [
    0xe8400060, 0x08000240, 0x801c4028, 0x08000240, 0x081c025a, 0xe8400048, 0x08000240, 0xe81f1fbd,
    0x08000240, 0x341a0258, 0xe8400000, 0x08000240,
];

/// OR 0,0,0
const NOP: u32 = 0x0800_0240;

/// The registers that a routine of arithmetic may change.
const SCRATCH: [usize; 7] = [1, 21, 22, 25, 26, 28, 29];

/// The routine of a name.
fn named(name: &str) -> Option<Routine> {
    for routine in library() {
        if routine.name == name.as_bytes() {
            return Some(*routine);
        }
    }
    None
}

/// A machine with these words and routines behind them, and one word more.
fn program(rt: &impl Abort, alloc: Global, front: &[u32], routines: &[&str]) -> Box<Machine> {
    let mut words = Vec::from_slice(alloc, front).expect(rt, "memory for words");
    for name in routines {
        let routine = named(*name).expect(rt, "a routine");
        words
            .extend_from_slice(routine.words)
            .expect(rt, "memory for words");
    }
    words.push(NOP).expect(rt, "memory for words");
    machine(rt, alloc, &words)
}

/// Appends the operands of a line of the table.
fn push_operands(rt: &impl Abort, bytes: &mut Vec<u8>, line: &str) {
    for text in line.split_whitespace().take(2) {
        let operand = u32::from_str_radix(text, 16).expect(rt, "an operand");
        bytes
            .extend_from_slice(&operand.to_be_bytes())
            .expect(rt, "memory for operands");
    }
}

/// The operands as the caller reads them.
fn operands(rt: &impl Abort, alloc: Global) -> SureSource {
    let mut bytes = Vec::new(alloc);
    for line in PAIRS.lines() {
        push_operands(rt, &mut bytes, line);
    }
    SureSource::new(alloc, &bytes).expect(rt, "an input")
}

/// An output with room enough.
fn output(rt: &impl Abort, alloc: Global) -> SureSink {
    SureSink::new(alloc, 4000).expect(rt, "an output")
}

/// Whether four bytes are the word that a column of a line of the table has; whatever they are where that
/// has `-`.
fn is_wanted(line: &str, index: usize, bytes: &[u8]) -> bool {
    match line.split_whitespace().nth(index) {
        Some("-") => true,
        Some(text) => match u32::from_str_radix(text, 16) {
            Ok(word) => word.to_be_bytes().as_slice() == bytes,
            Err(_) => false,
        },
        None => false,
    }
}

/// Whether bytes are, line for line, the words that a column of the table has.
fn are_wanted(bytes: &[u8], index: usize) -> bool {
    let mut rest = bytes;
    for line in PAIRS.lines() {
        let Some((word, behind)) = rest.split_at_checked(4) else {
            return false;
        };
        if !is_wanted(line, index, word) {
            return false;
        }
        rest = behind;
    }
    rest.is_empty()
}

/// Adds how the caller of a routine ends on all pairs, and whether it writes what a column of the table has.
fn push_results(rt: &impl Abort, text: &mut Text, name: &str, column: usize) {
    let mut machine = program(rt, text.alloc(), &CALLER, &[name]);
    let mut input = operands(rt, text.alloc());
    let mut out = output(rt, text.alloc());
    text.debug(&run(&mut machine, &mut input, &mut out, 1_000_000));
    text.push(b" ");
    text.debug(&are_wanted(out.bytes(), column));
}

/// Adds how the echo ends on an input, and what it writes.
fn push_echo(rt: &impl Abort, text: &mut Text, input: &str) {
    let mut machine = program(rt, text.alloc(), &ECHO, &["exit", "getchar", "putchar"]);
    let mut input = SureSource::new(text.alloc(), input.as_bytes()).expect(rt, "an input");
    let mut out = output(rt, text.alloc());
    text.debug(&run(&mut machine, &mut input, &mut out, 1_000_000));
    text.push(b" ");
    text.push(out.bytes());
}

/// All registers.
fn registers(machine: &Machine) -> [u32; 32] {
    let mut words = [0u32; 32];
    for r in 0u8..32 {
        words[usize::from(r)] = machine.reg(r);
    }
    words
}

/// The words of the memory from the text to beyond the start of the stack.
fn memory(rt: &impl Abort, alloc: Global, machine: &Machine) -> Vec<Option<u32>> {
    let mut words = Vec::new(alloc);
    for i in 0u32..1000 {
        words
            .push(machine.word_at(4096 + 4 * i))
            .expect(rt, "memory for words");
    }
    words
}

/// Steps to the next call of the routine; whether there is one.
fn comes_to_call(machine: &mut Machine, input: &mut SureSource, out: &mut SureSink) -> bool {
    for _step in 0u32..200 {
        if machine.front() == ROUTINE {
            return true;
        }
        run(machine, input, out, 1);
    }
    false
}

/// Steps through a call, and answers how many steps it took, if no more than a bound.
fn call_steps(
    machine: &mut Machine,
    input: &mut SureSource,
    out: &mut SureSink,
    bound: u32,
) -> Option<u32> {
    for n in 0u32..bound.saturating_add(1) {
        if machine.front() == RETURN {
            return Some(n);
        }
        run(machine, input, out, 1);
    }
    None
}

/// Whether registers differ in scratch registers alone.
fn kept(before: &[u32; 32], after: &[u32; 32]) -> bool {
    for r in 0..32 {
        if before[r] != after[r] && !SCRATCH.contains(&r) {
            return false;
        }
    }
    true
}

/// Steps to the next call of the routine and through it: how many steps it takes, if no more than the bound,
/// and if it changes scratch registers alone.
fn next_call(
    machine: &mut Machine,
    input: &mut SureSource,
    out: &mut SureSink,
    bound: u32,
) -> Option<u32> {
    let comes = comes_to_call(machine, input, out);
    let before = registers(machine);
    let steps = call_steps(machine, input, out, bound);
    if comes && kept(&before, &registers(machine)) {
        steps
    } else {
        None
    }
}

/// The larger of two counts, if both are there.
fn larger(one: Option<u32>, other: Option<u32>) -> Option<u32> {
    match (one, other) {
        (Some(one), Some(other)) => Some(one.max(other)),
        _ => None,
    }
}

/// The greatest count of steps of the calls on all pairs, if each is as it should be.
fn most(rt: &impl Abort, alloc: Global, machine: &mut Machine, bound: u32) -> Option<u32> {
    let mut input = operands(rt, alloc);
    let mut out = output(rt, alloc);
    let mut most = Some(0);
    for _line in PAIRS.lines() {
        most = larger(most, next_call(machine, &mut input, &mut out, bound));
    }
    most
}

/// Adds the most steps of a routine's calls on all pairs, and whether the memory is as before.
fn push_steps(rt: &impl Abort, text: &mut Text, name: &str, bound: u32) {
    let mut machine = program(rt, text.alloc(), &CALLER, &[name]);
    let start = memory(rt, text.alloc(), &machine);
    let most = most(rt, text.alloc(), &mut machine, bound);
    text.debug(&(most, memory(rt, text.alloc(), &machine) == start));
}
