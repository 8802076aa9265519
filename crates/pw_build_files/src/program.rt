//! The program of the modules of a store.

ghost use Rattle.std.specs.Prelude.{◌≡◌, ◌≤◌, ◌+◌, ℕ, Ok, Option, IfErr, IfOk, IfSome, OnOk, count_by, length, map};
ghost use Rattle.std.specs.List.{AllByRecursion};
ghost use Rattle.pw_io.specs.Files.{Keeps};
ghost use Rattle.pw_store_modules.specs.Views.{source};
ghost use Rattle.pw_db.specs.Database.{IsDatabase};
ghost use Rattle.pw_object.specs.Object.{IsObject};
ghost use Rattle.pw_image.specs.Image.{IsImage};
ghost use Rattle.pw_link.specs.Linking.{linked};
ghost use Rattle.pw_value.specs.Limits.{module_limit};
ghost use Rattle.pw_build_objects.specs.Choosing.{marks_of, objects_of, parts_of};
ghost use Rattle.pw_build_objects.specs.Programs.{WasMade};
ghost use Rattle.pw_build_objects.specs.Counting.{CountsUpTo};
ghost use Rattle.pw_build.specs.Builds.{Builds, first_phases};
ghost use Rattle.pw_build.specs.Phases.{IsLine, refused_line};
ghost use Rattle.pw_store_kept.specs.Kept.{kept_object};
ghost use Rattle.pw_store_kept.specs.Files.{HoldBytes, file_view};
ghost use Rattle.pw_build_files.specs.Seen.{SeesFault, SeesModules};
ghost use Rattle.pw_build_files.specs.Programs.{AreAsMany, BuildsFiles, CountsAtMost, FaultBuilds, FaultCount, HoldsImage, IsCounted, IsNoWant};
ghost use Rattle.pw_db.specs.Limits.{colour_limit};

use pw_build::{BuildFault, Unbuilt, first_phases, no_refusal_is_want_of_memory};
use pw_build_objects::laws::forms_keep_what_modules_have;
use pw_build_objects::{Built, Made, Steps, complete};
use pw_build_opts::Opts;
use pw_io::Store;
use pw_object::Object;
use pw_store_kept::{ProgramFiles, files_of, read_kept};
use pw_store_modules::Module;
use pw_store_texts::seen_modules;
use pw_value::LinkFault;
use std::alloc::{AllocError, Global};
use std::sync::ledger::Ledger;

/// The modules of a store as a build sees them, of which there are not too many.
#[tactic(auto, using(crate::proofs::ModulesLemmas::modules_no_want, crate::proofs::ModulesLemmas::modules_line, crate::proofs::ModulesLemmas::modules_count, crate::proofs::ModulesLemmas::modules_faults, crate::proofs::ModulesLemmas::modules_seen, crate::proofs::ModulesLemmas::modules_few))]
pub fn modules_to_build<S: Store>(alloc: Global, store: &mut S) -> Result<Vec<Module>, Unbuilt>
    ensures modules { IfSome (S.told store.old) (λ told. IfOk result (λ modules. SeesModules told.files (map source modules.items))) }
    ensures fault { IfSome (S.told store.old) (λ told. IfErr result (λ unbuilt. SeesFault told.files unbuilt.fault)) }
    ensures few { IfSome (S.told store.old) (λ told. IfOk result (λ modules. length modules.items ≤ module_limit)) }
    ensures line { IfErr result (λ unbuilt. (due : Option ℕ) → IsLine due unbuilt.fault unbuilt.line) }
    ensures proper { IfErr result (λ unbuilt. IsNoWant unbuilt.fault) }
    ensures same { Keeps (S.told store.old) (S.told store.new) }
    ensures count { FaultCount (S.faults store.old) (S.faults store.new) result }
{
    Ok(seen_modules(alloc, store)?)
}

/// The program of modules, and of what the store keeps of them.
#[tactic(auto, using(crate::proofs::WantLemmas::phases_no_want, crate::proofs::WantLemmas::stored_no_want))]
fn built_of<S: Store, L: Ledger>(
    alloc: Global,
    store: &mut S,
    modules: &[Module],
    opts: &Opts,
    steps: &mut Steps<L>,
) -> Result<Built, Unbuilt>
    requires { opts.now.colours ≤ colour_limit }
    ensures built { IfSome (S.told store.old) (λ told. IfOk result (λ built. Builds (map source modules.now) (map (λ m. kept_object told.files m.name) modules.now) opts.now (Ok (parts_of built)))) }
    ensures fault { IfSome (S.told store.old) (λ told. IfErr result (λ unbuilt. FaultBuilds (map source modules.now) (map (λ m. kept_object told.files m.name) modules.now) opts.now unbuilt.fault)) }
    ensures line { IfErr result (λ unbuilt. IsLine (refused_line (map source modules.now)) unbuilt.fault unbuilt.line) }
    ensures few { OnOk result (length modules.now ≤ module_limit) }
    ensures many { IfOk result (λ built. AreAsMany modules.now built) }
    ensures image { IfOk result (λ built. built.image ≡ linked (objects_of built.made.items) opts.now.stack) }
    ensures lawful_database { IfOk result (λ built. IsDatabase built.database.functions) }
    ensures lawful_objects { IfOk result (λ built. AllByRecursion IsObject (objects_of built.made.items)) }
    ensures were_made { IfOk result (λ built. AllByRecursion WasMade (objects_of built.made.items)) }
    ensures lawful_image { IfOk result (λ built. IsImage built.image) }
    ensures counted { IfOk result (λ built. steps.new ≡ steps.old + count_by (λ fresh. fresh) (marks_of built.made.items)) }
    ensures counted_fault { IfSome (S.told store.old) (λ told. IfErr result (λ unbuilt. IsCounted (map source modules.now) (map (λ m. kept_object told.files m.name) modules.now) opts.now unbuilt.fault steps.old steps.new)) }
    ensures bound { CountsAtMost (first_phases (map source modules.now)) steps.old steps.new }
    ensures proper { IfErr result (λ unbuilt. IsNoWant unbuilt.fault) }
    ensures same { Keeps (S.told store.old) (S.told store.new) }
    ensures count { FaultCount (S.faults store.old) (S.faults store.new) result }
{
    no_refusal_is_want_of_memory();
    forms_keep_what_modules_have();
    let flows = first_phases(alloc, modules)?;
    let kept = read_kept(alloc, store, modules)?;
    match complete(alloc, flows, kept, opts, steps) {
        Ok(built) => Ok(built),
        Err(LinkFault::NoMemory) => Err(Unbuilt {
            fault: BuildFault::NoMemory,
            line: None,
        }),
        Err(fault) => Err(Unbuilt {
            fault: BuildFault::LinkRefused(fault),
            line: None,
        }),
    }
}

/// The files of a program, and the objects that it was linked of.
#[derive(Drop)]
pub struct Linked {
    pub files: ProgramFiles,
    pub objects: Vec<Object>,
}

/// The objects themselves.
fn taken_objects(alloc: Global, made: Vec<Made>) -> Result<Vec<Object>, AllocError>
    ensures { IfOk result (λ objects. objects.items ≡ objects_of made.items) }
{
    made.into_iter().map(|one| one.object).collect(alloc)
}

/// The files of the program of modules, and of what the store keeps of them, with its objects.
#[tactic(auto, using(crate::proofs::WantLemmas::none_no_want))]
pub fn program_of<S: Store, L: Ledger>(
    alloc: Global,
    store: &mut S,
    modules: &[Module],
    opts: &Opts,
    steps: &mut Steps<L>,
) -> Result<Linked, Unbuilt>
    requires { opts.now.colours ≤ colour_limit }
    ensures files { IfSome (S.told store.old) (λ told. IfOk result (λ linked. BuildsFiles (map source modules.now) (map (λ m. kept_object told.files m.name) modules.now) opts.now linked.files linked.objects.items)) }
    ensures bytes { IfOk result (λ linked. HoldBytes (map file_view linked.files.fresh.files.items)) }
    ensures image { IfOk result (λ linked. HoldsImage linked.files.image.items) }
    ensures were_made { IfOk result (λ linked. AllByRecursion WasMade linked.objects.items) }
    ensures fault { IfSome (S.told store.old) (λ told. IfErr result (λ unbuilt. FaultBuilds (map source modules.now) (map (λ m. kept_object told.files m.name) modules.now) opts.now unbuilt.fault)) }
    ensures line { IfErr result (λ unbuilt. IsLine (refused_line (map source modules.now)) unbuilt.fault unbuilt.line) }
    ensures few { OnOk result (length modules.now ≤ module_limit) }
    ensures counted { IfOk result (λ linked. steps.new ≡ steps.old + length linked.files.fresh.names.items) }
    ensures counted_fault { IfSome (S.told store.old) (λ told. IfErr result (λ unbuilt. IsCounted (map source modules.now) (map (λ m. kept_object told.files m.name) modules.now) opts.now unbuilt.fault steps.old steps.new)) }
    ensures bound { CountsAtMost (first_phases (map source modules.now)) steps.old steps.new }
    ensures most { CountsUpTo module_limit steps.old steps.new }
    ensures proper { IfErr result (λ unbuilt. IsNoWant unbuilt.fault) }
    ensures same { Keeps (S.told store.old) (S.told store.new) }
    ensures count { FaultCount (S.faults store.old) (S.faults store.new) result }
{
    let built = built_of(alloc, store, modules, opts, steps)?;
    let files = files_of(alloc, modules, &built.database, &built.made, &built.image)?;
    Ok(Linked {
        files,
        objects: taken_objects(alloc, built.made)?,
    })
}
