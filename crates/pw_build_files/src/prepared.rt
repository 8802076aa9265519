//! A build as far as its puts.

ghost use Rattle.std.specs.Prelude.{◌≡◌, ◌+◌, Ok, IfErr, IfOk, IfSome, length, map};
ghost use Rattle.std.specs.List.{AllByRecursion};
ghost use Rattle.pw_io.specs.Files.{Files, Keeps};
ghost use Rattle.pw_store_modules.specs.Modules.{modules_of};
ghost use Rattle.pw_store_modules.specs.Views.{source};
ghost use Rattle.pw_value.specs.Limits.{module_limit};
ghost use Rattle.pw_build_objects.specs.Counting.{CountsUpTo};
ghost use Rattle.pw_build_objects.specs.Programs.{WasMade};
ghost use Rattle.pw_build_files.specs.FromBuild.Builds.{first_phases};
ghost use Rattle.pw_build_files.specs.FromBuild.Phases.{IsLine, refused_line};
ghost use Rattle.pw_store_kept.specs.Files.{changed_files};
ghost use Rattle.pw_build_files.specs.Building.{BuildOutcome};
ghost use Rattle.pw_build_files.specs.Seen.{SeenOutcome};
ghost use Rattle.pw_store_texts.specs.Seen.{IsSeen};
ghost use Rattle.pw_build_files.specs.Genuine.{IsOwnFile};
ghost use Rattle.pw_build_files.specs.Outcomes.{AreOpts, CountsAtMost, CountsBuilt, CountsFound, CountsSeen, FaultBuilt, FaultCount, FaultFound, HoldsImage, IsNoWant, outcome_of};

use crate::program::{modules_to_build, program_of};
use pw_build::Unbuilt;
use pw_build_objects::Steps;
use pw_build_opts::Opts;
use pw_io::Store;
use pw_object::Object;
use pw_store_kept::{Prepared, compared};
use pw_store_modules::Module;
use pw_store_texts::{built_files_are_seen, files_are_seen_in_one_way};
use std::alloc::Global;
use std::sync::ledger::Ledger;

/// A build as far as its puts, with the objects that were linked.
#[derive(Drop)]
pub struct Ready {
    pub prepared: Prepared,
    pub objects: Vec<Object>,
}

/// What modules come to, where they are those of the store as a build sees them, before the files are put.
#[tactic(auto, using(crate::proofs::FileLemmas::stored_no_want))]
fn prepared_of<S: Store, L: Ledger>(
    alloc: Global,
    store: &mut S,
    modules: &[Module],
    opts: &Opts,
    steps: &mut Steps<L>,
) -> Result<Ready, Unbuilt>
    requires { AreOpts opts.now }
    ensures comes { IfSome (S.told store.old) (λ told. (shown : Files) → IsSeen told.files shown → map source modules.now ≡ modules_of shown → IfOk result (λ ready. BuildOutcome shown opts.now (Ok (outcome_of ready.prepared ready.objects.items)))) }
    ensures own { IfSome (S.told store.old) (λ told. IfOk result (λ ready. AllByRecursion IsOwnFile (changed_files ready.prepared))) }
    ensures image { IfOk result (λ ready. HoldsImage ready.prepared.image.items) }
    ensures were_made { IfOk result (λ ready. AllByRecursion WasMade ready.objects.items) }
    ensures fault { IfSome (S.told store.old) (λ told. (shown : Files) → IsSeen told.files shown → map source modules.now ≡ modules_of shown → IfErr result (λ unbuilt. FaultBuilt shown opts.now unbuilt.fault)) }
    ensures line { IfErr result (λ unbuilt. IsLine (refused_line (map source modules.now)) unbuilt.fault unbuilt.line) }
    ensures counted { IfOk result (λ ready. steps.new ≡ steps.old + length ready.prepared.rebuilt.items) }
    ensures counted_fault { IfSome (S.told store.old) (λ told. (shown : Files) → IsSeen told.files shown → map source modules.now ≡ modules_of shown → IfErr result (λ unbuilt. CountsBuilt shown opts.now unbuilt.fault steps.old steps.new)) }
    ensures bound { CountsAtMost (first_phases (map source modules.now)) steps.old steps.new }
    ensures most { CountsUpTo module_limit steps.old steps.new }
    ensures proper { IfErr result (λ unbuilt. IsNoWant unbuilt.fault) }
    ensures same { Keeps (S.told store.old) (S.told store.new) }
    ensures count { FaultCount (S.faults store.old) (S.faults store.new) result }
{
    built_files_are_seen();
    match program_of(alloc, store, modules, opts, steps) {
        Ok(linked) => Ok(Ready {
            prepared: compared(alloc, store, modules.len() as u32, linked.files)?,
            objects: linked.objects,
        }),
        Err(unbuilt) => Err(unbuilt),
    }
}

/// What the modules of a store come to, before the files are put.
pub fn prepare<S: Store, L: Ledger>(
    alloc: Global,
    store: &mut S,
    opts: &Opts,
    steps: &mut Steps<L>,
) -> Result<Ready, Unbuilt>
    requires { AreOpts opts.now }
    ensures comes { IfSome (S.told store.old) (λ told. IfOk result (λ ready. SeenOutcome told.files opts.now (Ok (outcome_of ready.prepared ready.objects.items)))) }
    ensures own { IfSome (S.told store.old) (λ told. IfOk result (λ ready. AllByRecursion IsOwnFile (changed_files ready.prepared))) }
    ensures image { IfOk result (λ ready. HoldsImage ready.prepared.image.items) }
    ensures were_made { IfOk result (λ ready. AllByRecursion WasMade ready.objects.items) }
    ensures fault { IfSome (S.told store.old) (λ told. IfErr result (λ unbuilt. FaultFound told.files opts.now unbuilt.fault)) }
    ensures line { IfSome (S.told store.old) (λ told. IfErr result (λ unbuilt. (shown : Files) → IsSeen told.files shown → IsLine (refused_line (modules_of shown)) unbuilt.fault unbuilt.line)) }
    ensures counted { IfOk result (λ ready. steps.new ≡ steps.old + length ready.prepared.rebuilt.items) }
    ensures counted_fault { IfSome (S.told store.old) (λ told. IfErr result (λ unbuilt. CountsFound told.files opts.now unbuilt.fault steps.old steps.new)) }
    ensures bound { IfSome (S.told store.old) (λ told. CountsSeen told.files steps.old steps.new) }
    ensures most { CountsUpTo module_limit steps.old steps.new }
    ensures proper { IfErr result (λ unbuilt. IsNoWant unbuilt.fault) }
    ensures same { Keeps (S.told store.old) (S.told store.new) }
    ensures count { FaultCount (S.faults store.old) (S.faults store.new) result }
{
    files_are_seen_in_one_way();
    match modules_to_build(alloc, store) {
        Ok(modules) => prepared_of(alloc, store, &modules, opts, steps),
        Err(unbuilt) => Err(unbuilt),
    }
}
