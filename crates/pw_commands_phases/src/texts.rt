//! The first phase over the text of a module.

ghost use Rattle.std.specs.Prelude.{◌≡◌, ℕ, List, true, IfErr, IfOk, IfSome};
ghost use Rattle.pw_top_answer.specs.Effects.{PutsFiles};
ghost use Rattle.pw_top_answer.specs.Outcomes.{IsLineDue, StoreCount};
ghost use Rattle.pw_flow.specs.ValidFlow.{IsValid};
ghost use Rattle.pw_store_modules.specs.Modules.{is_module_name};
ghost use Rattle.pw_phase_one.specs.FirstPhase.{compiled};
ghost use Rattle.pw_commands.specs.Others.{KeepsOthers};
ghost use Rattle.pw_commands.specs.Outcome.{IsPutAnswer, Obeys};
ghost use Rattle.pw_commands_phases.specs.First.{AreBytesOf, AreFormBytes, EffectOfPhase, IsForm, IsSumOf, TextEffect, line_in, phase_one_puts, text_line, two_files};
ghost use Rattle.pw_commands_phases.specs.Made.{IsTextAnswer, MakesOfPhase, TellsError, TellsReply, line_of};

use crate::files::{module_bytes, put_bytes};
use pw_flow::FlowModule;
use pw_flowfile::laws::flow_graphs_and_files_are_one_to_one;
use pw_front_end::{FrontEndFault, refusal_line};
use pw_io::Store;
use pw_law_opt::laws::optimisation_keeps_lawful;
use pw_opt::optimised_forms_are_one;
use pw_phase_one::laws::no_refusal_is_want_of_memory;
use pw_phase_one::{PhaseError, phase_one};
use pw_store_modules::{FLOW_ENDING, SUMMARY_ENDING, TEXT_ENDING};
use pw_summarise::laws::a_module_has_one_summary;
use pw_summarise::summarise;
use pw_summary_file::laws::summaries_and_files_are_one_to_one;
use pw_top_answer::{Answer, Reply};
use pw_value::Name;
use std::alloc::{AllocError, Global};

/// The bytes of the two files that are made of a module's text.
#[derive(Drop)]
pub struct MadeFiles {
    flow: Vec<u8>,
    sum: Vec<u8>,
}

/// The bytes of the file of a flow graph's summary.
fn sum_file(alloc: Global, flow: &FlowModule) -> Result<Vec<u8>, AllocError>
    requires { IsValid flow.now }
    ensures { IfOk result (λ sum. IsSumOf flow.now sum.items) }
{
    let summary = summarise(alloc, flow)?;
    pw_summary_file::write(alloc, &summary)
}

/// The bytes of the file of a flow graph, and of the file of its summary.
fn files_of(alloc: Global, flow: &FlowModule) -> Result<MadeFiles, AllocError>
    requires { IsValid flow.now }
    ensures { IfOk result (λ made. AreBytesOf flow.now made.flow.items made.sum.items) }
{
    let bytes = pw_flowfile::write(alloc, flow)?;
    let sum = sum_file(alloc, flow)?;
    Ok(MadeFiles { flow: bytes, sum })
}

/// The flow graph that is written: the optimised one, or itself.
fn form_of(alloc: Global, flow: FlowModule, optimise: bool) -> Result<FlowModule, AllocError>
    requires { IsValid flow }
    ensures form { IfOk result (λ form. IsForm optimise flow form) }
    ensures lawful { IfOk result (λ form. IsValid form) }
{
    optimisation_keeps_lawful();
    if optimise {
        let optimised = pw_opt::optimise(alloc, &flow)?;
        Ok(optimised)
    } else {
        Ok(flow)
    }
}

/// The bytes of the two files of a flow graph, optimised or not.
fn form_files(alloc: Global, flow: FlowModule, optimise: bool) -> Result<MadeFiles, AllocError>
    requires { IsValid flow }
    ensures { IfOk result (λ made. AreFormBytes optimise flow made.flow.items made.sum.items) }
{
    let form = form_of(alloc, flow, optimise)?;
    files_of(alloc, &form)
}

/// How an error of the first phase is told of the module of this name.
fn told_error(own: Name, error: PhaseError) -> Answer
    ensures { TellsError own error result }
{
    match error {
        FrontEndFault::NoMemory => Answer::NoMemory,
        FrontEndFault::Refused(refusal) => Answer::Refused(own, refusal),
    }
}

/// The two files of a flow graph, optimised or not.
fn made_of_flow(alloc: Global, flow: FlowModule, optimise: bool) -> Result<MadeFiles, Answer>
    requires { IsValid flow }
    ensures made { IfOk result (λ made. AreFormBytes optimise flow made.flow.items made.sum.items) }
    ensures none { IfErr result (λ answer. answer ≡ Answer.NoMemory) }
{
    match form_files(alloc, flow, optimise) {
        Ok(made) => Ok(made),
        Err(AllocError) => Err(Answer::NoMemory),
    }
}

/// The two files of a module's text, or the answer in their place.
fn made_of_text(
    alloc: Global,
    name: &Name,
    text: &[u8],
    optimise: bool,
) -> Result<MadeFiles, Answer>
    ensures { MakesOfPhase name.now optimise (compiled name.now text.now) result }
{
    match phase_one(alloc, name, text) {
        Ok(flow) => made_of_flow(alloc, flow, optimise),
        Err(error) => Err(told_error(name.copy(alloc)?, error)),
    }
}

/// The line of an answer, in the text of its module, where the module is refused.
fn line_of(alloc: Global, text: &[u8], answer: &Answer) -> Result<Option<usize>, AllocError>
    ensures { IfOk result (λ line. line ≡ line_of text.now answer.now) }
{
    match answer {
        Answer::Refused(_, refusal) => Ok(Some(refusal_line(alloc, text, refusal)?)),
        _ => Ok(None),
    }
}

/// An answer with its line, or want of memory in its place.
fn reply_of(alloc: Global, text: &[u8], answer: Answer) -> Reply
    ensures { TellsReply text.now answer result.answer result.line }
{
    match line_of(alloc, text, &answer) {
        Ok(line) => Reply { answer, line },
        Err(AllocError) => Reply {
            answer: Answer::NoMemory,
            line: None,
        },
    }
}

/// Puts the two files of a module.
fn put_made<S: Store>(alloc: Global, store: &mut S, name: &Name, made: &MadeFiles) -> Answer
    requires { is_module_name name.now ≡ true }
    ensures put { IfSome (S.told store.old) (λ told. PutsFiles (two_files name.now made.now.flow.items made.now.sum.items) result told (S.told store.new)) }
    ensures answer { IsPutAnswer result }
    ensures count { StoreCount (S.faults store.old) (S.faults store.new) result }
{
    match put_bytes(alloc, store, name, FLOW_ENDING, &made.flow) {
        Answer::Done => put_bytes(alloc, store, name, SUMMARY_ENDING, &made.sum),
        answer => answer,
    }
}

/// Compiles a module's text that was read.
pub fn compile_bytes<S: Store>(
    alloc: Global,
    store: &mut S,
    name: &Name,
    text: &[u8],
    optimise: bool,
) -> Reply
    requires { is_module_name name.now ≡ true }
    ensures obeys { IfSome (S.told store.old) (λ told. (input : List ℕ) → Obeys (EffectOfPhase name.now optimise (compiled name.now text.now) input) result.answer told (S.told store.new)) }
    ensures others { KeepsOthers (phase_one_puts name.now) result.answer (S.told store.old) (S.told store.new) }
    ensures line { IsLineDue (line_in text.now (compiled name.now text.now)) result.answer result.line }
    ensures answer { IsTextAnswer result.answer }
    ensures count { StoreCount (S.faults store.old) (S.faults store.new) result.answer }
{
    flow_graphs_and_files_are_one_to_one();
    summaries_and_files_are_one_to_one();
    a_module_has_one_summary();
    optimised_forms_are_one();
    no_refusal_is_want_of_memory();
    match made_of_text(alloc, name, text, optimise) {
        Ok(made) => Reply {
            answer: put_made(alloc, store, name, &made),
            line: None,
        },
        Err(answer) => reply_of(alloc, text, answer),
    }
}

/// Compiles the text in a module's file.
pub fn compile_plain<S: Store>(alloc: Global, store: &mut S, name: &Name, optimise: bool) -> Reply
    requires { is_module_name name.now ≡ true }
    ensures obeys { IfSome (S.told store.old) (λ told. (input : List ℕ) → Obeys (TextEffect told.files name.now optimise input) result.answer told (S.told store.new)) }
    ensures others { KeepsOthers (phase_one_puts name.now) result.answer (S.told store.old) (S.told store.new) }
    ensures line { IfSome (S.told store.old) (λ told. IsLineDue (text_line told.files name.now) result.answer result.line) }
    ensures answer { IsTextAnswer result.answer }
    ensures count { StoreCount (S.faults store.old) (S.faults store.new) result.answer }
{
    match module_bytes(alloc, store, name, TEXT_ENDING) {
        Ok(text) => compile_bytes(alloc, store, name, &text, optimise),
        Err(answer) => Reply { answer, line: None },
    }
}
