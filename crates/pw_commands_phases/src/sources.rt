//! The command `phase1`, of a module that may have a C source.

ghost use Rattle.std.specs.Prelude.{◌≡◌, ℕ, List, true, IfSome};
ghost use Rattle.pw_top_answer.specs.Outcomes.{IsLineDue, StoreCount};
ghost use Rattle.pw_store_modules.specs.Modules.{is_module_name};
ghost use Rattle.pw_phase_one.specs.FirstPhase.{compiled};
ghost use Rattle.pw_commands.specs.Others.{KeepsOthers};
ghost use Rattle.pw_commands.specs.Outcome.{Obeys};
ghost use Rattle.pw_commands_phases.specs.First.{EffectOfSource, IsPhaseLine, PhaseOneEffect, line_in, phase_one_puts};
ghost use Rattle.pw_commands_phases.specs.Made.{IsPhaseAnswer, source_answer};

use crate::texts::{compile_bytes, compile_plain};
use pw_commands_cpp::{a_source_has_one_output, source_output};
use pw_io::Store;
use pw_top_answer::{Answer, Reply};
use pw_value::Name;
use std::alloc::Global;

/// What is told of a reply on the output of a C source.
fn of_source(reply: Reply) -> Reply
    ensures answer { result.answer ≡ source_answer reply.answer }
    ensures line { result.line ≡ reply.line }
{
    let Reply { answer, line } = reply;
    match answer {
        Answer::Refused(name, refusal) => Reply {
            answer: Answer::RefusedSource(name, refusal),
            line,
        },
        answer => Reply { answer, line },
    }
}

/// Compiles what the preprocessor made of a module's C source.
#[tactic(auto, using(crate::proofs::SourceLemmas::source_obeys, crate::proofs::SourceLemmas::source_others, crate::proofs::SourceLemmas::source_line, crate::proofs::SourceLemmas::source_kind, crate::proofs::SourceLemmas::source_count))]
fn compile_output<S: Store>(
    alloc: Global,
    store: &mut S,
    name: &Name,
    text: &[u8],
    optimise: bool,
) -> Reply
    requires { is_module_name name.now ≡ true }
    ensures obeys { IfSome (S.told store.old) (λ told. (input : List ℕ) → Obeys (EffectOfSource name.now optimise (compiled name.now text.now) input) result.answer told (S.told store.new)) }
    ensures others { KeepsOthers (phase_one_puts name.now) result.answer (S.told store.old) (S.told store.new) }
    ensures line { IsLineDue (line_in text.now (compiled name.now text.now)) result.answer result.line }
    ensures answer { IsPhaseAnswer result.answer }
    ensures count { StoreCount (S.faults store.old) (S.faults store.new) result.answer }
{
    of_source(compile_bytes(alloc, store, name, text, optimise))
}

/// Compiles the text of a module into its flow graph and summary.
///
/// The text is the output that the preprocessor makes of `NAME.c`, where that is there, and else stands in `NAME.i`. The flow graph is
/// optimised first, if that is asked for, and the summary is that of the optimised one. `NAME.flow` is put, and then `NAME.sum`. The
/// answer is `Done` where both were put; `Refused`, and of an output `RefusedSource`, where the text is refused, with the line; `Cpp`
/// with the first fault that the preprocessor finds; `BadFile` where neither file is there; nothing is put then.
#[tactic(auto, using(crate::proofs::SourceLemmas::obeys_plain, crate::proofs::SourceLemmas::obeys_output, crate::proofs::SourceLemmas::obeys_faulty, crate::proofs::SourceLemmas::obeys_error, crate::proofs::SourceLemmas::line_plain, crate::proofs::SourceLemmas::line_output, crate::proofs::SourceLemmas::line_faulty, crate::proofs::SourceLemmas::line_error, crate::proofs::SourceLemmas::later_others, crate::proofs::SourceLemmas::same_others, crate::proofs::SourceLemmas::text_is_phase))]
pub fn compile_text<S: Store>(alloc: Global, store: &mut S, name: &Name, optimise: bool) -> Reply
    requires { is_module_name name.now ≡ true }
    ensures obeys { IfSome (S.told store.old) (λ told. (input : List ℕ) → Obeys (PhaseOneEffect told.files name.now optimise input) result.answer told (S.told store.new)) }
    ensures others { KeepsOthers (phase_one_puts name.now) result.answer (S.told store.old) (S.told store.new) }
    ensures line { IfSome (S.told store.old) (λ told. IsPhaseLine told.files name.now result.answer result.line) }
    ensures answer { IsPhaseAnswer result.answer }
    ensures count { StoreCount (S.faults store.old) (S.faults store.new) result.answer }
{
    a_source_has_one_output();
    match source_output(alloc, store, name) {
        Ok(None) => compile_plain(alloc, store, name, optimise),
        Ok(Some(Ok(text))) => compile_output(alloc, store, name, &text, optimise),
        Ok(Some(Err(fault))) => Reply {
            answer: Answer::Cpp(fault),
            line: None,
        },
        Err(error) => Reply {
            answer: Answer::from(error),
            line: None,
        },
    }
}
