//! Cases of pw_machine: programs by their words, with the ends, the outputs and the registers that the rules of
//! the instructions give by hand.

use crate::cases::Case;
use crate::machines::{machine, push_registers, push_run, push_words, run};
use pw_io::{MemSink, MemSource};
use pw_machine::Machine;
use pw_rows::Text;
use std::alloc::Global;
use std::process::Abort;

/// An output: its room, its faults, and the budgets of the calls that write to it, one after another.
type Output = (usize, &'static [u64], &'static [u64]);

/// What is asked of programs. Words are hexadecimal.
pub(crate) enum ProgramCase {
    /// The stop, the steps and the output of a program of these words with this input, and then some of its registers;
    /// in turns of one step and in turns of 1,000.
    Ran(&'static str, &'static str, &'static [u8]),
    /// Of each call on `ECHO` with `b` in its input, by the faults of the input and the outputs: its answer, the front,
    /// the steps, register 28, and the output.
    Echoed(&'static [u64], &'static [Output]),
    /// The stack of `ECHO` as it starts, and the words at `ADDRESSES`.
    Started,
}

/// LDO 97(0),26; BREAK 0,2; BREAK 0,1; OR 28,0,26; BREAK 0,2; BREAK 0,3
const ECHO: &str = "341a00c2 00004000 00002000 081c025a 00004000 00006000";

/// Addresses of words, those of the text from 4,096 on, and two of no word.
static ADDRESSES: [u32; 7] = [0, 4096, 4116, 4120, 4098, 67_108_860, 67_108_864];

// Cases and their answers. Above each stands what it is.

/// Programs that end by a BREAK, a word of no form or a branch.
pub(crate) static ENDS: [(ProgramCase, &str); 9] = [
    // a BREAK of no meaning
    //   00000001
    (
        ProgramCase::Ran("00000001", "", &[]),
        "Halted(BadBreak, 4096) 1 []",
    ),
    // BREAK 4,8
    //   BREAK 4,8
    (
        ProgramCase::Ran("00010004", "", &[]),
        "Halted(BadBreak, 4096) 1 []",
    ),
    // a status of 257
    //   LDO 257(0),26; BREAK 0,3
    (
        ProgramCase::Ran("341a0202 00006000", "", &[]),
        "Ended(1) 2 []",
    ),
    // no stack
    //   BREAK 0,4
    (ProgramCase::Ran("00008000", "", &[]), "StackStop 1 []"),
    // a word of no form
    //   ffffffff
    (
        ProgramCase::Ran("ffffffff", "", &[]),
        "Halted(Illegal, 4096) 1 []",
    ),
    // a branch to 0
    //   BV 0(0); NOP
    (
        ProgramCase::Ran("e800c000 08000240", "", &[]),
        "Halted(BadBranch, 0) 3 []",
    ),
    // a branch to 4097
    //   LDO 4097(0),1; BV,n 0(1); NOP
    (
        ProgramCase::Ran("34012002 e820c002 08000240", "", &[]),
        "Halted(BadBranch, 4097) 4 []",
    ),
    // the end of the text
    //   NOP
    (
        ProgramCase::Ran("08000240", "", &[]),
        "Halted(BadBranch, 4100) 2 []",
    ),
    // a branch that is nullified to 0
    //   BV,n 0(0); BREAK 0,4
    (
        ProgramCase::Ran("e800c002 00008000", "", &[]),
        "Halted(BadBranch, 0) 3 []",
    ),
];

/// Programs that load and store.
pub(crate) static ACCESSES: [(ProgramCase, &str); 11] = [
    // a word at 1
    //   LDW 1(0),1
    (
        ProgramCase::Ran("48010002", "", &[]),
        "Halted(Unaligned, 4096) 1 []",
    ),
    // a half word at 1
    //   LDH 1(0),1
    (
        ProgramCase::Ran("44010002", "", &[]),
        "Halted(Unaligned, 4096) 1 []",
    ),
    // a word at 0
    //   LDW 0(0),1
    (
        ProgramCase::Ran("48010000", "", &[]),
        "Halted(OutOfMemoryRange, 4096) 1 []",
    ),
    // a byte at 4095
    //   LDB 4095(0),1
    (
        ProgramCase::Ran("40011ffe", "", &[]),
        "Halted(OutOfMemoryRange, 4096) 1 []",
    ),
    // a word at -4
    //   LDW -4(0),1
    (
        ProgramCase::Ran("48013ff9", "", &[]),
        "Halted(OutOfMemoryRange, 4096) 1 []",
    ),
    // a store at 4096
    //   STW 0,4096(0)
    (
        ProgramCase::Ran("68002000", "", &[]),
        "Halted(TextWrite, 4096) 1 []",
    ),
    // a store at 1
    //   STW 0,1(0)
    (
        ProgramCase::Ran("68000002", "", &[]),
        "Halted(Unaligned, 4096) 1 []",
    ),
    // a store at 0
    //   STB 0,0(0)
    (
        ProgramCase::Ran("60000000", "", &[]),
        "Halted(OutOfMemoryRange, 4096) 1 []",
    ),
    // a store just below the data
    //   LDO -1(0),1; STB 1,4112(0); LDB 4112(0),2; STB 1,4111(0)
    (
        ProgramCase::Ran("34013fff 60012020 40022020 6001201e", "", &[2]),
        "Halted(TextWrite, 4108) 4 [] 2=000000ff",
    ),
    // the last bytes of the memory
    //   LDIL 32767,1; LDO 2044(1),1; STW 1,0(1); LDB 3(1),2; LDH 2(1),3; LDW 0(1),4; LDW 4(1),5
    (
        ProgramCase::Ran(
            "203ff07e 34210ff8 68210000 40220006 44230004 48240000 48250008",
            "",
            &[1, 2, 3, 4, 5],
        ),
        "Halted(OutOfMemoryRange, 4120) 7 [] 1=03fffffc 2=000000fc 3=0000fffc 4=03fffffc 5=00000000",
    ),
    // big-endian parts of a word
    //   LDIL 1193046,1; LDO 120(1),1; STW 1,0(30); LDB 0(30),2; LDB 3(30),3; LDH 0(30),4; STH 1,4(30);
    //   STB 1,6(30); LDW 4(30),5; BREAK 0,4
    (
        ProgramCase::Ran(
            "20352235 342100f0 6bc10000 43c20000 43c30006 47c40000 67c10008 63c1000c 4bc50008 00008000",
            "",
            &[1, 2, 3, 4, 5],
        ),
        "StackStop 10 [] 1=91a2b078 2=00000091 3=00000078 4=000091a2 5=b0787800",
    ),
];

/// Programs that compute, read and write.
pub(crate) static VALUES: [(ProgramCase, &str); 7] = [
    // the sum of 3 and 4
    //   LDO 3(0),28; LDO 4(0),1; ADDL 28,1,28; OR 28,0,26; BREAK 0,3
    (
        ProgramCase::Ran("341c0006 34010008 083c0a1c 081c025a 00006000", "", &[28]),
        "Ended(7) 5 [] 28=00000007",
    ),
    // register 0
    //   LDO 5(0),0; OR 0,0,26; BREAK 0,3
    (
        ProgramCase::Ran("3400000a 0800025a 00006000", "", &[0]),
        "Ended(0) 3 [] 0=00000000",
    ),
    // one byte of input, its echo and the end
    //   BREAK 0,1; OR 28,0,5; OR 28,0,26; BREAK 0,2; OR 28,0,6; BREAK 0,1; OR 28,0,26; BREAK 0,2;
    //   BREAK 0,3
    (
        ProgramCase::Ran(
            "00002000 081c0245 081c025a 00004000 081c0246 00002000 081c025a 00004000 00006000",
            "a",
            &[5, 6, 26, 28],
        ),
        "Ended(255) 9 [97, 255] 5=00000061 6=00000061 26=ffffffff 28=000000ff",
    ),
    // arithmetic on edge values
    //   LDIL 1048576,1; LDO -1(1),2; LDO -1(0),3; LDO 36(0),4; AND 1,2,5; OR 1,2,6; XOR 2,3,7;
    //   SUB 1,2,8; SUB 2,1,9; ADDL 3,3,10; SUBI 5,3,11; SUBI -1024,1,12; LDIL 2097151,13; BREAK 0,4
    (
        ProgramCase::Ran(
            "20200001 34223fff 34033fff 34040048 08410205 08410246 08620287 08410408 08220409 08630a0a 946b000a 942c0001 21bfffff 00008000",
            "",
            &[1, 2, 3, 5, 6, 7, 8, 9, 10, 11, 12, 13],
        ),
        "StackStop 14 [] 1=80000000 2=7fffffff 3=ffffffff 5=00000000 6=ffffffff 7=80000000 8=00000001 9=ffffffff 10=fffffffe 11=00000006 12=7ffffc00 13=fffff800",
    ),
    // fields of edge values
    //   LDIL 1048576,1; LDO -1(1),2; LDO -1(0),3; LDO 36(0),4; EXTRU 1,0,1,5; EXTRS 1,0,1,6;
    //   EXTRU 2,31,32,7; EXTRS 1,4,5,8; EXTRU 3,15,8,9; EXTRS 2,0,1,10; ZDEP 3,7,8,11; ZDEP 2,31,32,12;
    //   ZDEP 3,0,1,13; MTCTL 4,11; VSHD 1,3,14; VSHD 2,0,15; EXTRS 3,31,32,16; BREAK 0,4
    (
        ProgramCase::Ran(
            "20200001 34223fff 34033fff 34040048 d025181f d0261c1f d0471be0 d0281c9b d06919f8 d04a1c1f d5630b18 d5820800 d5a30bff 01641840 d061000e d002000f d0701fe0 00008000",
            "",
            &[5, 6, 7, 8, 9, 10, 11, 12, 13, 14, 15, 16],
        ),
        "StackStop 18 [] 5=00000001 6=ffffffff 7=7fffffff 8=fffffff0 9=000000ff 10=00000000 11=ff000000 12=7fffffff 13=80000000 14=0fffffff 15=f0000000 16=ffffffff",
    ),
    // conditions on the least and the greatest number
    //   LDIL 1048576,1; LDO -1(1),2; LDO -1(0),3; LDO 36(0),4; COMCLR,nv 1,2,5; LDO 1(10),10;
    //   COMCLR,= 1,2,0; LDO 2(10),10; COMCLR,< 1,2,0; LDO 4(10),10; COMCLR,<= 1,2,0; LDO 8(10),10;
    //   COMCLR,<< 1,2,0; LDO 16(10),10; COMCLR,<<= 1,2,0; LDO 32(10),10; COMCLR,tr 1,2,0; LDO 64(10),10;
    //   COMCLR,<> 1,2,0; LDO 128(10),10; COMCLR,>= 1,2,0; LDO 256(10),10; COMCLR,> 1,2,0;
    //   LDO 512(10),10; COMCLR,>>= 1,2,0; LDO 1024(10),10; COMCLR,>> 1,2,0; LDO 2048(10),10; BREAK 0,4
    (
        ProgramCase::Ran(
            "20200001 34223fff 34033fff 34040048 08410885 354a0002 08412880 354a0004 08414880 354a0008 08416880 354a0010 08418880 354a0020 0841a880 354a0040 08411880 354a0080 08413880 354a0100 08415880 354a0200 08417880 354a0400 08419880 354a0800 0841b880 354a1000 00008000",
            "",
            &[10, 5],
        ),
        "StackStop 29 [] 10=00000333 5=00000000",
    ),
    // conditions on a number and itself
    //   LDIL 1048576,1; LDO -1(1),2; LDO -1(0),3; LDO 36(0),4; COMCLR,nv 4,4,5; LDO 1(10),10;
    //   COMCLR,= 4,4,0; LDO 2(10),10; COMCLR,< 4,4,0; LDO 4(10),10; COMCLR,<= 4,4,0; LDO 8(10),10;
    //   COMCLR,<< 4,4,0; LDO 16(10),10; COMCLR,<<= 4,4,0; LDO 32(10),10; COMCLR,tr 4,4,0; LDO 64(10),10;
    //   COMCLR,<> 4,4,0; LDO 128(10),10; COMCLR,>= 4,4,0; LDO 256(10),10; COMCLR,> 4,4,0;
    //   LDO 512(10),10; COMCLR,>>= 4,4,0; LDO 1024(10),10; COMCLR,>> 4,4,0; LDO 2048(10),10; BREAK 0,4
    (
        ProgramCase::Ran(
            "20200001 34223fff 34033fff 34040048 08840885 354a0002 08842880 354a0004 08844880 354a0008 08846880 354a0010 08848880 354a0020 0884a880 354a0040 08841880 354a0080 08843880 354a0100 08845880 354a0200 08847880 354a0400 08849880 354a0800 0884b880 354a1000 00008000",
            "",
            &[10, 5],
        ),
        "StackStop 29 [] 10=00000a95 5=00000000",
    ),
];

/// Programs that branch, and the echo with its faults; the stack of the last begins 64 bytes above the end of the
/// data, 4120, rounded up to 64.
pub(crate) static BRANCHES: [(ProgramCase, &str); 11] = [
    // branches on conditions
    //   LDO 1(0),1; COMBT,= 1,0,00001014; LDO 1(10),10; COMBT,<< 1,0,00001018; LDO 2(10),10;
    //   COMBF,<< 0,1,00001004; COMBF,= 1,0,00001024; LDO 4(10),10; LDO 8(10),10; BREAK 0,4
    (
        ProgramCase::Ran(
            "34010002 80012010 354a0002 80018008 354a0004 88209fd5 88012008 354a0008 354a0010 00008000",
            "",
            &[10],
        ),
        "StackStop 9 [] 10=00000007",
    ),
    // a call and its delay slot
    //   BL 00001010,2; LDO 1(5),5; LDO 2(5),5; LDO 4(5),5; BREAK 0,4
    (
        ProgramCase::Ran("e8400010 34a50002 34a50004 34a50008 00008000", "", &[2, 5]),
        "StackStop 3 [] 2=00001008 5=00000001",
    ),
    // a call that nullifies its delay slot
    //   BL,n 00001010,2; LDO 1(5),5; LDO 2(5),5; LDO 4(5),5; BREAK 0,4
    (
        ProgramCase::Ran("e8400012 34a50002 34a50004 34a50008 00008000", "", &[2, 5]),
        "StackStop 3 [] 2=00001008 5=00000000",
    ),
    // a call in the delay slot of a call
    //   BL 00001010,2; BL 0000101c,3; LDO 1(5),5; LDO 2(5),5; LDO 4(5),5; LDO 8(5),5; LDO 16(5),5;
    //   BREAK 0,4
    (
        ProgramCase::Ran(
            "e8400010 e8600020 34a50002 34a50004 34a50008 34a50010 34a50020 00008000",
            "",
            &[2, 3, 5],
        ),
        "StackStop 4 [] 2=00001008 3=00001014 5=00000004",
    ),
    // a nullified call
    //   COMCLR,tr 0,0,0; BL 00001010,2; LDO 1(5),5; BREAK 0,4; LDO 2(5),5
    (
        ProgramCase::Ran("08001880 e8400008 34a50002 00008000 34a50004", "", &[2, 5]),
        "StackStop 4 [] 2=00000000 5=00000001",
    ),
    // a call through a register
    //   LDO 4112(0),31; BLE 0(4,31); LDO 1(5),5; LDO 2(5),5; BREAK 0,4
    (
        ProgramCase::Ran("341f2020 e7e02000 34a50002 34a50004 00008000", "", &[31, 5]),
        "StackStop 4 [] 31=0000100c 5=00000001",
    ),
    // a call through a register that nullifies
    //   LDO 4112(0),1; BLE,n 0(4,1); LDO 1(5),5; LDO 2(5),5; BREAK 0,4
    (
        ProgramCase::Ran("34012020 e4202002 34a50002 34a50004 00008000", "", &[31, 5]),
        "StackStop 4 [] 31=0000100c 5=00000000",
    ),
    // a loop of three turns
    //   LDO 3(0),1; LDO 5(5),5; LDO -1(1),1; COMBF,= 1,0,00001004; LDO 1(6),6; BREAK 0,4
    (
        ProgramCase::Ran(
            "34010006 34a5000a 34213fff 88013fe5 34c60002 00008000",
            "",
            &[1, 5, 6],
        ),
        "StackStop 14 [] 1=00000000 5=0000000f 6=00000003",
    ),
    // the output `a`, and then a fault of the input; the next call reads
    (
        ProgramCase::Echoed(&[1], &[(2, &[], &[0, 100, 1, 3, 0])]),
        "Spent 4096 0 0 []\nReadFault 4104 2 97 [97]\nSpent 4108 3 98 [97]\nEnded(98) 4116 6 98 [97, 98]\nEnded(98) 4116 6 98 [97, 98]\n",
    ),
    // the output, which has room for one byte and a fault at the second; the next call, with another, writes
    (
        ProgramCase::Echoed(&[], &[(1, &[2], &[100, 100]), (2, &[], &[100])]),
        "WriteFault 4112 4 98 [97]\nWriteFault 4112 4 98 [97]\nEnded(98) 4116 6 98 [98]\n",
    ),
    (
        ProgramCase::Started,
        "4224 Some(0) Some(874119362) Some(24576) Some(0) None Some(0) None",
    ),
];

impl Case for ProgramCase {
    fn answer<R: Abort>(&self, rt: &R, text: &mut Text) {
        match self {
            ProgramCase::Ran(words, input, registers) => {
                push_both(rt, text, *words, *input, *registers)
            }
            ProgramCase::Echoed(faults, outputs) => push_echoed(rt, text, *faults, *outputs),
            ProgramCase::Started => push_started(rt, text),
        }
    }
}

/// A machine with the words of a text.
fn program(rt: &impl Abort, alloc: Global, text: &str) -> Box<Machine> {
    let mut words = Vec::new(alloc);
    for word in text.split_whitespace() {
        let word = u32::from_str_radix(word, 16).expect(rt, "a word");
        words.push(word).expect(rt, "memory for a word");
    }
    machine(rt, alloc, &words)
}

/// What a program does in turns of so many steps.
fn ran(
    rt: &impl Abort,
    alloc: Global,
    words: &str,
    input: &str,
    registers: &[u8],
    budget: u64,
) -> Vec<u8> {
    let mut text = Text::new(alloc);
    let mut machine = program(rt, alloc, words);
    push_run(rt, &mut text, &mut machine, input, budget);
    push_registers(&mut text, &machine, registers);
    text.into_bytes().expect(rt, "memory for a text")
}

/// Adds what a program does in turns of one step, and in turns of 1,000 where that is something else.
fn push_both(rt: &impl Abort, text: &mut Text, words: &str, input: &str, registers: &[u8]) {
    let one = ran(rt, text.alloc(), words, input, registers, 1);
    let many = ran(rt, text.alloc(), words, input, registers, 1000);
    text.push(&one);
    if many != one {
        text.push(b" but in turns of 1000 ");
        text.push(&many);
    }
}

/// Adds what calls with these budgets, one after another, answer and leave.
fn push_calls(
    text: &mut Text,
    machine: &mut Machine,
    input: &mut MemSource,
    out: &mut MemSink,
    budgets: &[u64],
) {
    for budget in budgets {
        text.debug(&run(machine, input, out, *budget));
        text.push(b" ");
        text.display(&machine.front());
        text.push(b" ");
        text.display(&machine.steps());
        text.push(b" ");
        text.display(&machine.reg(28));
        text.push(b" ");
        text.debug(&out.bytes());
        text.push(b"\n");
    }
}

/// Adds what the calls on the echo of `b` behind `a` answer and leave.
fn push_echoed(rt: &impl Abort, text: &mut Text, faults: &[u64], outputs: &[Output]) {
    let mut machine = program(rt, text.alloc(), ECHO);
    let mut input = MemSource::new(text.alloc(), b"b", faults).expect(rt, "an input");
    for (room, faults, budgets) in outputs {
        let mut out = MemSink::new(text.alloc(), *room, *faults).expect(rt, "an output");
        push_calls(text, &mut machine, &mut input, &mut out, *budgets);
    }
}

/// Adds the stack and some words of the echo as it starts.
fn push_started(rt: &impl Abort, text: &mut Text) {
    let machine = program(rt, text.alloc(), ECHO);
    text.display(&machine.reg(30));
    push_words(text, &machine, &ADDRESSES);
}
