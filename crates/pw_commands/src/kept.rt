//! The kept files of all modules of one kind.

ghost use Rattle.std.specs.Prelude.{◌≡◌, ◌≤◌, ℕ, List, Result, ◌++◌, true, All, IfErr, IfOk, IfSome, length, map, string_bytes};
ghost use Rattle.std.specs.List.{AllByRecursion};
ghost use Rattle.pw_io.specs.Files.{Keeps};
ghost use Rattle.pw_fields.specs.FieldFaults.{GivesFile};
ghost use Rattle.pw_value.specs.Names.{IsNameLength};
ghost use Rattle.pw_store_modules.specs.Modules.{is_module_name};
ghost use Rattle.pw_commands.specs.Linking.{few_names, of_names};
ghost use Rattle.pw_commands.specs.Needed.{AddsNeeded, Needs, all_needed, needed};
ghost use Rattle.pw_commands.specs.Outcome.{IsFileStop, IsStop, StopCount};

use crate::needed::{read_needed, refused};
use pw_io::Store;
use pw_object::Object;
use pw_store_modules::file_of;
use pw_store_texts::module_names;
use pw_summary::Summary;
use pw_top_answer::Answer;
use pw_value::{FileError, Name};
use std::alloc::Global;

/// What stands in a kept file of its own kind.
pub trait Kept: Sized {
    /// What stands in a file's bytes, or the offset at which they are refused.
    ghost stands: { List ℕ → Result Self ℕ };

    /// A value that a file can hold.
    ghost lawful: { Self → Type 0 };

    /// The value whose file the bytes are.
    fn read(alloc: Global, bytes: &[u8]) -> Result<Self, FileError>
        ensures stands { GivesFile (λ value. value) result (stands bytes.now) }
        ensures lawful { IfOk result lawful };
}

impl Kept for Object {
    ghost use Rattle.pw_object.specs.Object.{IsObject};
    ghost use Rattle.pw_commands.specs.Linking.{object_at};

    ghost stands = { object_at };

    ghost lawful = { IsObject };

    fn read(alloc: Global, bytes: &[u8]) -> Result<Object, FileError> {
        pw_object::read(alloc, bytes)
    }
}

impl Kept for Summary {
    ghost use Rattle.pw_summary.specs.Summary.{IsSummary};
    ghost use Rattle.pw_commands.specs.Analysing.{summary_at};

    ghost stands = { summary_at };

    ghost lawful = { IsSummary };

    fn read(alloc: Global, bytes: &[u8]) -> Result<Summary, FileError> {
        pw_summary_file::read(alloc, bytes)
    }
}

/// The value in a needed file.
fn needed_value<S: Store, K: Kept + Drop>(
    alloc: Global,
    store: &mut S,
    name: &str,
) -> Result<K, Answer>
    requires { IsNameLength (length name.now) }
    ensures value { IfSome (S.told store.old) (λ told. Needs (λ v. v) result (needed K.stands told.files name.now)) }
    ensures lawful { IfOk result K.lawful }
    ensures same { Keeps (S.told store.old) (S.told store.new) }
    ensures count { StopCount (S.faults store.old) (S.faults store.new) result }
    ensures stop { IfErr result IsFileStop }
{
    let bytes = read_needed(alloc, store, name)?;
    match K::read(alloc, &bytes) {
        Ok(value) => Ok(value),
        Err(error) => Err(refused(Name::within(alloc, name.as_bytes())?, error)),
    }
}

/// Reads the value of a module, and puts it behind others.
fn add_value<S: Store, K: Kept + Drop>(
    alloc: Global,
    store: &mut S,
    values: &mut Vec<K>,
    stem: &str,
    ending: &str,
) -> Result<(), Answer>
    requires name { is_module_name stem.now ≡ true }
    requires ending { length ending.now ≤ 8 }
    ensures value { IfSome (S.told store.old) (λ told. AddsNeeded (needed K.stands told.files (stem.now ++ ending.now)) values.old.items values.new.items result) }
    ensures lawful { AllByRecursion K.lawful values.old.items → AllByRecursion K.lawful values.new.items }
    ensures same { Keeps (S.told store.old) (S.told store.new) }
    ensures count { StopCount (S.faults store.old) (S.faults store.new) result }
    ensures stop { IfErr result IsFileStop }
{
    let name = file_of(alloc, stem, ending)?;
    let value = needed_value(alloc, store, name.as_str())?;
    match values.push(value) {
        Ok(()) => Ok(()),
        Err(_full) => Err(Answer::NoMemory),
    }
}

/// The values of modules, in their order.
fn read_values<S: Store, K: Kept + Drop>(
    alloc: Global,
    store: &mut S,
    modules: &[String],
    ending: &str,
) -> Result<Vec<K>, Answer>
    requires names { All (λ stem. is_module_name (string_bytes stem) ≡ true) modules.now }
    requires ending { length ending.now ≤ 8 }
    ensures values { IfSome (S.told store.old) (λ told. Needs (λ values. values.items) result (all_needed K.stands told.files (map (λ stem. string_bytes stem ++ ending.now) modules.now))) }
    ensures lawful { IfOk result (λ values. AllByRecursion K.lawful values.items) }
    ensures same { Keeps (S.told store.old) (S.told store.new) }
    ensures count { StopCount (S.faults store.old) (S.faults store.new) result }
    ensures stop { IfErr result IsFileStop }
{
    let mut values = Vec::new(alloc);
    for stem in modules {
        match add_value(alloc, store, &mut values, stem.as_str(), ending) {
            Ok(()) => {}
            Err(answer) => return Err(answer),
        }
    }
    Ok(values)
}

/// The names of the modules, of which there are not too many.
#[tactic(auto, using(crate::proofs::StopLemmas::modules_stop, crate::proofs::StopLemmas::modules_count, crate::proofs::NeededLemmas::names_told, crate::proofs::NeededLemmas::names_stop))]
fn few_names<S: Store>(alloc: Global, store: &mut S) -> Result<Vec<String>, Answer>
    ensures names { IfSome (S.told store.old) (λ told. Needs (λ names. map string_bytes names.items) result (few_names told.files)) }
    ensures named { IfOk result (λ names. All (λ stem. is_module_name (string_bytes stem) ≡ true) names.items) }
    ensures same { Keeps (S.told store.old) (S.told store.new) }
    ensures count { StopCount (S.faults store.old) (S.faults store.new) result }
    ensures stop { IfErr result IsStop }
{
    Ok(module_names(alloc, store)?)
}

/// What stands in the files of one kind of all modules, in the order of their names.
#[tactic(auto, using(crate::proofs::StopLemmas::file_stop_stops))]
pub fn kept_of_modules<S: Store, K: Kept + Drop>(
    alloc: Global,
    store: &mut S,
    ending: &str,
) -> Result<Vec<K>, Answer>
    requires { length ending.now ≤ 8 }
    ensures values { IfSome (S.told store.old) (λ told. Needs (λ values. values.items) result (of_names K.stands ending.now told.files (few_names told.files))) }
    ensures lawful { IfOk result (λ values. AllByRecursion K.lawful values.items) }
    ensures same { Keeps (S.told store.old) (S.told store.new) }
    ensures count { StopCount (S.faults store.old) (S.faults store.new) result }
    ensures stop { IfErr result IsStop }
{
    let modules = few_names(alloc, store)?;
    read_values(alloc, store, &modules, ending)
}
