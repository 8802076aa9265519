//! The command `build`.

ghost use Rattle.std.specs.Prelude.{◌≡◌, ◌<◌, ℕ, List, Option, Result, IfErr, IfOk, IfSome};
ghost use Rattle.std.specs.List.{AllByRecursion};
ghost use Rattle.pw_top_answer.specs.Effects.{Effect};
ghost use Rattle.pw_top_answer.specs.Outcomes.{IsPrintAnswer, LeavesStreams, OutputCount, PutsOut, StoreCount};
ghost use Rattle.pw_build_objects.specs.Programs.{WasMade};
ghost use Rattle.pw_build_files.specs.FromBuild.BuildFault.{BuildFault};
ghost use Rattle.pw_build_files.specs.Building.{Outcome};
ghost use Rattle.pw_build_files.specs.Seen.{IsSeenLine, SeenOutcome};
ghost use Rattle.pw_build_files.specs.Genuine.{KeepsGenuine};
ghost use Rattle.pw_build_files.specs.Lines.{report_text};
ghost use Rattle.pw_build_files.specs.Outcomes.{AnswersOutcome, AreOpts, FaultCount, HoldsImage, IsLineOfBuild, IsNoWant, ObeysBuild, PutsSome, build_answer, fault_answer};
ghost use Rattle.pw_commands.specs.Outcome.{Obeys};
ghost use Rattle.pw_build_files.specs.Driving.{BuildEffect, IsBuildAnswer, KeepsUnput};

use crate::building::build;
use crate::report::{Report, report_lines};
use pw_build::{BuildFault, Unbuilt};
use pw_build_objects::Steps;
use pw_build_opts::Opts;
use pw_io::laws::other_files;
use pw_io::{Sink, Store};
use pw_top_answer::{Answer, Reply, print};
use std::alloc::{AllocError, Global};
use std::marker::Brand;
use std::sync::ledger::{Blank, Ledger};

/// A build whose steps a ledger counts.
fn build_counted<S: Store, L: Ledger>(
    alloc: Global,
    store: &mut S,
    opts: &Opts,
    blank: Blank,
) -> Result<Report, Unbuilt>
    requires opts { AreOpts opts.now }
    requires name { blank.name ≡ L.name }
    requires parts { blank.parts ≡ L.parts }
    requires some { 0 < blank.parts }
    ensures obeys { IfSome (S.told store.old) (λ told. ObeysBuild opts.now result told (S.told store.new)) }
    ensures line { IfSome (S.told store.old) (λ told. IsLineOfBuild told.files result) }
    ensures image { IfOk result (λ report. HoldsImage report.image.items) }
    ensures were_made { IfOk result (λ report. AllByRecursion WasMade report.objects.items) }
    ensures others { IfSome (S.told store.old) (λ told. PutsSome (build_answer result) told (S.told store.new)) }
    ensures genuine { IfSome (S.told store.old) (λ told. KeepsGenuine told.files → IfSome (S.told store.new) (λ now. KeepsGenuine now.files)) }
    ensures proper { IfErr result (λ unbuilt. IsNoWant unbuilt.fault) }
    ensures count { FaultCount (S.faults store.old) (S.faults store.new) result }
{
    let mut steps: Steps<L> = Steps::new(blank);
    build(alloc, store, opts, &mut steps)
}

/// Builds the program of the modules of a store, and puts what changed, for a caller that counts no steps.
pub fn build_uncounted<S: Store>(
    alloc: Global,
    store: &mut S,
    opts: &Opts,
) -> Result<Report, Unbuilt>
    requires { AreOpts opts.now }
    ensures obeys { IfSome (S.told store.old) (λ told. ObeysBuild opts.now result told (S.told store.new)) }
    ensures line { IfSome (S.told store.old) (λ told. IsLineOfBuild told.files result) }
    ensures image { IfOk result (λ report. HoldsImage report.image.items) }
    ensures were_made { IfOk result (λ report. AllByRecursion WasMade report.objects.items) }
    ensures others { IfSome (S.told store.old) (λ told. PutsSome (build_answer result) told (S.told store.new)) }
    ensures genuine { IfSome (S.told store.old) (λ told. KeepsGenuine told.files → IfSome (S.told store.new) (λ now. KeepsGenuine now.files)) }
    ensures proper { IfErr result (λ unbuilt. IsNoWant unbuilt.fault) }
    ensures count { FaultCount (S.faults store.old) (S.faults store.new) result }
{
    build_counted::<S, Brand>(alloc, store, opts, Blank::new(1))
}

/// Puts the two lines of a report out. The answer is `Done`, or that the output failed or memory ran out.
pub fn put_report<O: Sink>(alloc: Global, report: &Report, out: &mut O) -> Answer
    ensures output { PutsOut (report_text report.now) result (O.taken out.old) (O.taken out.new) }
    ensures write { OutputCount (O.faults out.old) (O.faults out.new) result }
    ensures answer { IsPrintAnswer result }
{
    match report_lines(alloc, report) {
        Ok(text) => print(out, text.as_bytes()),
        Err(AllocError) => Answer::NoMemory,
    }
}

/// A fault of a build, as the answer of the command.
pub fn answer_of(fault: BuildFault) -> Answer
    ensures { result ≡ fault_answer fault }
{
    match fault {
        BuildFault::Refused(name, refusal) => Answer::Refused(name, refusal),
        BuildFault::LinkRefused(fault) => Answer::LinkRefused(fault),
        BuildFault::StoreFault => Answer::StoreFault,
        BuildFault::NoMemory => Answer::NoMemory,
    }
}

/// Builds the program of the modules of a store, puts what changed, and puts the two lines of the report out.
///
/// The answer is `Done` where the files were put and the lines put out; `Refused` for the first module that is refused,
/// with the line; `LinkRefused` where the modules are refused together; nothing is put or put out then. A fault of the
/// output, or want of memory for the lines, comes after all files were put.
pub fn build_modules<S: Store, O: Sink>(
    alloc: Global,
    store: &mut S,
    out: &mut O,
    opts: &Opts,
) -> Reply
    requires { AreOpts opts.now }
    ensures obeys { IfSome (S.told store.old) (λ told. (input : List ℕ) → Obeys (BuildEffect told.files opts.now input) result.answer told (S.told store.new)) }
    ensures output { IfSome (S.told store.old) (λ told. (input : List ℕ) (effect : Effect) → BuildEffect told.files opts.now input effect → PutsOut effect.output result.answer (O.taken out.old) (O.taken out.new)) }
    ensures refusal { IfSome (S.told store.old) (λ told. (comes : Result Outcome BuildFault) → SeenOutcome told.files opts.now comes → AnswersOutcome comes result.answer) }
    ensures others { IfSome (S.told store.old) (λ told. KeepsUnput result.answer told (S.told store.new)) }
    ensures genuine { IfSome (S.told store.old) (λ told. KeepsGenuine told.files → IfSome (S.told store.new) (λ now. KeepsGenuine now.files)) }
    ensures line { IfSome (S.told store.old) (λ told. IsSeenLine told.files result.answer result.line) }
    ensures answer { IsBuildAnswer result.answer }
    ensures store { StoreCount (S.faults store.old) (S.faults store.new) result.answer }
    ensures write { OutputCount (O.faults out.old) (O.faults out.new) result.answer }
    ensures streams { (input : Option (List ℕ)) → LeavesStreams result.answer input input (O.taken out.old) (O.taken out.new) }
{
    other_files();
    match build_uncounted(alloc, store, opts) {
        Ok(report) => Reply {
            answer: put_report(alloc, &report, out),
            line: None,
        },
        Err(unbuilt) => Reply {
            line: unbuilt.line,
            answer: answer_of(unbuilt.fault),
        },
    }
}
