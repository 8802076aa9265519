//! The build.

ghost use Rattle.std.specs.Prelude.{◌≡◌, ◌+◌, Err, IfErr, IfOk, IfSome, length};
ghost use Rattle.pw_value.specs.Limits.{module_limit};
ghost use Rattle.pw_top_answer.specs.Effects.{PutsFiles};
ghost use Rattle.pw_build_objects.specs.Counting.{CountsUpTo};
ghost use Rattle.pw_build_objects.specs.Programs.{WasMade};
ghost use Rattle.std.specs.List.{AllByRecursion};
ghost use Rattle.pw_store_kept.specs.Files.{changed_files};
ghost use Rattle.pw_build_files.specs.Genuine.{KeepsGenuine, LeavesOthers};
ghost use Rattle.pw_build_files.specs.Outcomes.{AreOpts, CountsFound, CountsSeen, FaultCount, HoldsImage, IsLineOfBuild, IsNoWant, IsOfStore, ObeysBuild, PutsSome, Reports, build_answer, outcome_of};

use crate::laws::a_store_is_built_in_one_way;
use crate::prepared::{Ready, prepare};
use crate::report::Report;
use pw_build::Unbuilt;
use pw_build_objects::Steps;
use pw_build_opts::Opts;
use pw_io::Store;
use pw_io::laws::other_files;
use pw_object::Object;
use pw_store_kept::{Prepared, put_changed};
use sha2::{Digest, Sha256};
use std::alloc::Global;
use std::sync::ledger::Ledger;

/// The report of a build whose files were put.
fn report_of(made: Prepared, objects: Vec<Object>) -> Report
    ensures { Reports (outcome_of made objects.items) result }
{
    let Prepared {
        modules,
        rebuilt,
        image,
        ..
    } = made;
    let digest = Sha256::digest(image.as_slice());
    Report {
        modules,
        rebuilt,
        image,
        digest,
        objects,
    }
}

/// Puts what changed, and makes the report.
fn finished<S: Store>(alloc: Global, store: &mut S, made: Ready) -> Result<Report, Unbuilt>
    ensures put { IfSome (S.told store.old) (λ told. PutsFiles (changed_files made.prepared) (build_answer result) told (S.told store.new)) }
    ensures report { IfOk result (λ report. Reports (outcome_of made.prepared made.objects.items) report) }
    ensures fault { IfErr result (λ unbuilt. IsOfStore unbuilt.fault) }
    ensures count { FaultCount (S.faults store.old) (S.faults store.new) result }
{
    put_changed(alloc, store, &made.prepared)?;
    Ok(report_of(made.prepared, made.objects))
}

/// Builds the program of the modules of a store, and puts what changed.
///
/// The modules are the files `NAME.c` and `NAME.i`, in the byte order of their names; of the first the output of the preprocessor is
/// compiled, and a `NAME.i` beside it is ignored. What was kept of a module in `NAME.obj` stays
/// where it was made of the same flow graph under the same directives; each other object is made anew and put, then
/// `prog.db` and `prog.img`, each where its bytes differ from those that the store keeps. `steps` counts the objects that
/// are made anew, also where they are refused then.
///
/// # Errors
///
/// `Refused` for the first module that is refused, with the line; `LinkRefused` where there is too much, or the modules
/// are refused together; nothing is put then. A fault of the store, or want of memory: what was put before it stays, and
/// of the file whose put failed there may stand a part.
pub fn build<S: Store, L: Ledger>(
    alloc: Global,
    store: &mut S,
    opts: &Opts,
    steps: &mut Steps<L>,
) -> Result<Report, Unbuilt>
    requires { AreOpts opts.now }
    ensures obeys { IfSome (S.told store.old) (λ told. ObeysBuild opts.now result told (S.told store.new)) }
    ensures line { IfSome (S.told store.old) (λ told. IsLineOfBuild told.files result) }
    ensures image { IfOk result (λ report. HoldsImage report.image.items) }
    ensures were_made { IfOk result (λ report. AllByRecursion WasMade report.objects.items) }
    ensures others { IfSome (S.told store.old) (λ told. PutsSome (build_answer result) told (S.told store.new)) }
    ensures rest { IfSome (S.told store.old) (λ told. LeavesOthers told (S.told store.new)) }
    ensures genuine { IfSome (S.told store.old) (λ told. KeepsGenuine told.files → IfSome (S.told store.new) (λ now. KeepsGenuine now.files)) }
    ensures proper { IfErr result (λ unbuilt. IsNoWant unbuilt.fault) }
    ensures counted { IfOk result (λ report. steps.new ≡ steps.old + length report.rebuilt.items) }
    ensures counted_fault { IfSome (S.told store.old) (λ told. IfErr result (λ unbuilt. CountsFound told.files opts.now unbuilt.fault steps.old steps.new)) }
    ensures bound { IfSome (S.told store.old) (λ told. CountsSeen told.files steps.old steps.new) }
    ensures most { CountsUpTo module_limit steps.old steps.new }
    ensures count { FaultCount (S.faults store.old) (S.faults store.new) result }
{
    a_store_is_built_in_one_way();
    other_files();
    match prepare(alloc, store, opts, steps) {
        Ok(made) => finished(alloc, store, made),
        Err(unbuilt) => Err(unbuilt),
    }
}
