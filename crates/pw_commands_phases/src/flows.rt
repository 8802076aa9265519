//! The command `phase2`.

ghost use Rattle.std.specs.Prelude.{◌≡◌, ℕ, List, Ok, Err, true, IfErr, IfOk, IfSome, length};
ghost use Rattle.pw_io.specs.Files.{Keeps};
ghost use Rattle.pw_store_modules.specs.FileNames.{database_name, flow_name};
ghost use Rattle.pw_top_answer.specs.Outcomes.{StoreCount};
ghost use Rattle.pw_db.specs.Database.{IsDatabase};
ghost use Rattle.pw_flow.specs.ValidFlow.{IsValid};
ghost use Rattle.pw_store_modules.specs.Modules.{is_module_name};
ghost use Rattle.pw_object.specs.Object.{IsObject};
ghost use Rattle.pw_value.specs.Names.{IsNameLength};
ghost use Rattle.pw_commands.specs.Needed.{Needs, needed};
ghost use Rattle.pw_commands.specs.Others.{KeepsOthers};
ghost use Rattle.pw_commands.specs.Outcome.{IsFileStop, IsStoreAnswer, Obeys, StopCount};
ghost use Rattle.pw_commands.specs.Showing.{database_at};
ghost use Rattle.pw_commands_phases.specs.Second.{IsFileOfFlow, IsMade, IsMadeFile, IsObjectUnder, PhaseTwoEffect, PutsMade, flow_at, phase_two_puts};
ghost use Rattle.pw_commands_phases.specs.Made.{MakesObject};

use crate::files::put_bytes;
use pw_commands::{read_needed, refused};
use pw_db::Database;
use pw_db::laws::directives_are_one;
use pw_files::laws::are_bytes;
use pw_flow::FlowModule;
use pw_io::Store;
use pw_object::Object;
use pw_object::laws::objects_and_files_are_one_to_one;
use pw_phase_two::laws::a_module_has_one_object;
use pw_phase_two::{directives_for, phase_two};
use pw_store_modules::{DATABASE_NAME, FLOW_ENDING, OBJECT_ENDING, module_file};
use pw_top_answer::Answer;
use pw_value::Name;
use std::alloc::{AllocError, Global};

/// The flow graph in a file.
fn flow_in<S: Store>(alloc: Global, store: &mut S, file: &str) -> Result<FlowModule, Answer>
    requires { IsNameLength (length file.now) }
    ensures flow { IfSome (S.told store.old) (λ told. Needs (λ flow. flow) result (needed flow_at told.files file.now)) }
    ensures lawful { IfOk result (λ flow. IsValid flow) }
    ensures same { Keeps (S.told store.old) (S.told store.new) }
    ensures count { StopCount (S.faults store.old) (S.faults store.new) result }
    ensures stop { IfErr result IsFileStop }
{
    let bytes = read_needed(alloc, store, file)?;
    match pw_flowfile::read(alloc, &bytes) {
        Ok(flow) => Ok(flow),
        Err(error) => Err(refused(Name::within(alloc, file.as_bytes())?, error)),
    }
}

/// The database.
fn needed_database<S: Store>(alloc: Global, store: &mut S) -> Result<Database, Answer>
    ensures database { IfSome (S.told store.old) (λ told. Needs (λ db. db.functions) result (needed database_at told.files database_name)) }
    ensures lawful { IfOk result (λ db. IsDatabase db.functions) }
    ensures same { Keeps (S.told store.old) (S.told store.new) }
    ensures count { StopCount (S.faults store.old) (S.faults store.new) result }
    ensures stop { IfErr result IsFileStop }
{
    let bytes = read_needed(alloc, store, DATABASE_NAME)?;
    match pw_db_file::read(alloc, &bytes) {
        Ok(db) => Ok(db),
        Err(error) => Err(refused(Name::within(alloc, DATABASE_NAME.as_bytes())?, error)),
    }
}

/// The object of a flow graph under the directives of a database.
fn object_of(alloc: Global, flow: &FlowModule, db: &Database) -> Result<Object, AllocError>
    requires lawful { IsValid flow.now }
    requires database { IsDatabase db.now.functions }
    ensures object { IfOk result (λ object. IsObjectUnder flow.now db.now.functions object) }
    ensures made { IfOk result IsMade }
    ensures lawful { IfOk result (λ object. IsObject object) }
{
    let directives = directives_for(alloc, flow, db)?;
    phase_two(alloc, flow, &directives)
}

/// The object's file.
fn file_of_flow(alloc: Global, flow: &FlowModule, db: &Database) -> Result<Vec<u8>, AllocError>
    requires lawful { IsValid flow.now }
    requires database { IsDatabase db.now.functions }
    ensures file { IfOk result (λ bytes. IsFileOfFlow flow.now db.now.functions bytes.items) }
    ensures made { IfOk result (λ bytes. IsMadeFile bytes.items) }
{
    let object = object_of(alloc, flow, db)?;
    let bytes = pw_object::write(alloc, &object)?;
    are_bytes(&bytes);
    Ok(bytes)
}

/// The object's file of a flow graph under what was found of the database: an answer in the database's place is handed on.
fn file_under(
    alloc: Global,
    flow: &FlowModule,
    found: Result<Database, Answer>,
) -> Result<Vec<u8>, Answer>
    requires flow { IsValid flow.now }
    requires database { IfOk found (λ db. IsDatabase db.functions) }
    ensures object { (wanted : _) → Needs (λ db. db.functions) found wanted → MakesObject (Ok flow.now) wanted result }
    ensures made { IfOk result (λ bytes. IsMadeFile bytes.items) }
    ensures count { (before after : ℕ) → StopCount before after found → StopCount before after result }
    ensures stop { IfErr found IsFileStop → IfErr result IsFileStop }
    ensures wants { IfOk found (λ _. IfErr result (λ answer. answer ≡ Answer.NoMemory)) }
    ensures stopped { IfErr found (λ answer. result ≡ Err answer) }
{
    let db = found?;
    Ok(file_of_flow(alloc, flow, &db)?)
}

/// The object's file of the flow graph in a file, or the answer in its place.
fn object_file<S: Store>(alloc: Global, store: &mut S, file: &str) -> Result<Vec<u8>, Answer>
    requires { IsNameLength (length file.now) }
    ensures object { IfSome (S.told store.old) (λ told. MakesObject (needed flow_at told.files file.now) (needed database_at told.files database_name) result) }
    ensures made { IfOk result (λ bytes. IsMadeFile bytes.items) }
    ensures same { Keeps (S.told store.old) (S.told store.new) }
    ensures count { StopCount (S.faults store.old) (S.faults store.new) result }
    ensures stop { IfErr result IsFileStop }
{
    let flow = flow_in(alloc, store, file)?;
    let found = needed_database(alloc, store);
    file_under(alloc, &flow, found)
}

/// The file of a module's object, or the answer in its place.
fn object_bytes<S: Store>(alloc: Global, store: &mut S, name: &Name) -> Result<Vec<u8>, Answer>
    requires { is_module_name name.now ≡ true }
    ensures object { IfSome (S.told store.old) (λ told. MakesObject (needed flow_at told.files (flow_name name.now)) (needed database_at told.files database_name) result) }
    ensures made { IfOk result (λ bytes. IsMadeFile bytes.items) }
    ensures same { Keeps (S.told store.old) (S.told store.new) }
    ensures count { StopCount (S.faults store.old) (S.faults store.new) result }
    ensures stop { IfErr result IsFileStop }
{
    let file = module_file(alloc, name, FLOW_ENDING)?;
    object_file(alloc, store, file.as_str())
}

/// Compiles the flow graph of a module into its object, under the directives of the database.
///
/// The flow graph is read from `NAME.flow`, the database from `prog.db`, and `NAME.obj` is put. The answer is `Done`
/// where it was put; `BadFile` for the first of the two files that is absent or refused; nothing is put then.
pub fn compile_flow<S: Store>(alloc: Global, store: &mut S, name: &Name) -> Answer
    requires { is_module_name name.now ≡ true }
    ensures obeys { IfSome (S.told store.old) (λ told. (input : List ℕ) → Obeys (PhaseTwoEffect told.files name.now input) result told (S.told store.new)) }
    ensures made { IfSome (S.told store.old) (λ told. PutsMade name.now told (S.told store.new)) }
    ensures others { KeepsOthers (phase_two_puts name.now) result (S.told store.old) (S.told store.new) }
    ensures answer { IsStoreAnswer result }
    ensures count { StoreCount (S.faults store.old) (S.faults store.new) result }
{
    directives_are_one();
    a_module_has_one_object();
    objects_and_files_are_one_to_one();
    match object_bytes(alloc, store, name) {
        Ok(bytes) => put_bytes(alloc, store, name, OBJECT_ENDING, &bytes),
        Err(answer) => answer,
    }
}
