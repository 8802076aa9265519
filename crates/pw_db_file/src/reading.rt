//! Reading a database.

ghost use Rattle.std.specs.Prelude.{◌≡◌, ◌≢◌, ◌==◌, ◌++◌, ◌+◌, ◌<◌, ◌^◌, not, nat_lt, ℕ, List, length, map, Option, option_map, IfOk, IfErr, Ok};
ghost use Rattle.std.specs.List.{list_all, flat_map};
ghost use Rattle.std.specs.Str.{bytes_eq};
ghost use Rattle.pw_fields.specs.Fields.{text, items_at};
ghost use Rattle.pw_fields.specs.FieldFaults.{Fails, AnswersField, GivesFile};
ghost use Rattle.pw_fields.specs.FieldFrame.{ended, placed};
ghost use Rattle.pw_fields.specs.FieldNames.{first_unused};
ghost use Rattle.pw_files.specs.Kinds.{scalar_code};
ghost use Rattle.pw_value.specs.ProgramNames.{same_truth};
ghost use Rattle.pw_files.specs.Contents.{broken_at, value_of};
ghost use Rattle.pw_db.specs.declared.database.Directives.{Directives as AnyDirectives};
ghost use Rattle.pw_db.specs.declared.database.Database.{Database as AnyDatabase};
ghost use Rattle.pw_db.specs.Database.{kind as kind_of_file, first_version, database_version, IsDatabase, IsVersioned, webs_of, newest};
ghost use Rattle.pw_db_file.specs.Spelling.{IsDatabaseFile, IsPayload, names_of};
ghost use Rattle.pw_db_file.specs.Reading.{fits_first, number_at, global_at, kind_at, register_at, writes_at, role_at, web_at, webs_at, function_at, next_function, nothing_before, functions_at, unused_rule, fields_at, payload_at, database_file_at, functions_in};
ghost use Rattle.pw_db_file.specs.Seen.{known_web};

use crate::names::used_names;
use crate::seen::{Known, Seen};
use pw_db::{Database, Directives, FIRST, FIRST_REGISTER, KIND, LAST_REGISTER, Role, VERSION, Web};
use pw_db_sharing::{Sharing, read_sharing};
use pw_fields::names::read_name;
use pw_fields::{FieldFault, read_choice, read_flag, read_u8, read_u32};
use pw_files::format::{Format, read_contents, read_value};
use pw_files::kinds::{code_of, read_scalar};
use pw_files::late::check_used;
use pw_files::lists::read_name_above;
use pw_items::{Items, refs_of};
use pw_value::program_names::StartName;
use pw_value::{FileError, Kind, Name};
use std::alloc::Global;

// ---- whether a field fits the webs before

/// Whether the number is above those of the function's webs before it.
fn is_number_above(own: &[(Web, Role)], id: u32) -> bool
    ensures { result ≡ list_all (λ w. nat_lt w.id id) (map (λ w. w.0) own.now) }
{
    for web in own {
        if web.0.id >= id {
            return false;
        }
    }
    true
}

/// Whether none of the function's webs before is of the global.
fn is_global_free(own: &[(Web, Role)], global: &Name) -> bool
    ensures { result ≡ list_all (λ w. not (bytes_eq w.global global.now)) (map (λ w. w.0) own.now) }
{
    for web in own {
        if web.0.global == *global {
            return false;
        }
    }
    true
}

/// Whether none of the function's webs before has the register.
fn is_register_free(own: &[(Web, Role)], reg: u8) -> bool
    ensures { result ≡ list_all (λ w. not (w.reg == reg)) (map (λ w. w.0) own.now) }
{
    for web in own {
        if web.0.reg == reg {
            return false;
        }
    }
    true
}

/// Whether the global is that of the web of the same number before, if there is one.
fn fits_global(first: Option<Known>, global: &Name) -> bool
    ensures { result ≡ fits_first (option_map known_web first.entry) (λ w. bytes_eq w.global global.now) }
{
    match first {
        None => true,
        Some(web) => web.global == global,
    }
}

/// The same of the kind.
fn fits_kind(first: Option<Known>, kind: Kind) -> bool
    ensures { result ≡ fits_first (option_map known_web first.entry) (λ w. scalar_code w.kind == scalar_code kind) }
{
    match first {
        None => true,
        Some(web) => code_of(web.kind) == code_of(kind),
    }
}

/// The same of the register.
fn fits_register(first: Option<Known>, reg: u8) -> bool
    ensures { result ≡ fits_first (option_map known_web first.entry) (λ w. w.reg == reg) }
{
    match first {
        None => true,
        Some(web) => web.reg == reg,
    }
}

/// The same of whether the web writes.
fn fits_writes(first: Option<Known>, writes: bool) -> bool
    ensures { result ≡ fits_first (option_map known_web first.entry) (λ w. same_truth w.writes writes) }
{
    match first {
        None => true,
        Some(web) => web.writes == writes,
    }
}

// ---- the fields of a web

/// A number above those of the function's webs before it.
#[tactic(auto, unfolding(crate::specs::Reading::number_at))]
fn read_number<'a>(own: &[(Web, Role)], bytes: &'a [u8]) -> Result<(u32, &'a [u8]), FieldFault>
    ensures found { AnswersField (λ x. (x.0, x.1.now)) result (number_at (map (λ w. w.0) own.now) bytes.now) }
    ensures no_memory { IfErr result (λ e. e ≢ FieldFault.NoMemory) }
{
    let (id, rest) = read_u32(bytes)?;
    if is_number_above(own, id) {
        Ok((id, rest))
    } else {
        Err(FieldFault::Fault { left: bytes.len() })
    }
}

/// A global that no web of the function before has.
#[tactic(auto, unfolding(crate::specs::Reading::global_at))]
fn read_global<'a, 'b>(
    names: &'b [Name],
    first: Option<Known>,
    own: &[(Web, Role)],
    bytes: &'a [u8],
) -> Result<(&'b Name, &'a [u8]), FieldFault>
    ensures found { AnswersField (λ x. (x.0.now, x.1.now)) result (global_at names.now (option_map known_web first.entry) (map (λ w. w.0) own.now) bytes.now) }
    ensures no_memory { IfErr result (λ e. e ≢ FieldFault.NoMemory) }
{
    let (global, rest) = read_name(names, bytes)?;
    if fits_global(first, global) && is_global_free(own, global) {
        Ok((global, rest))
    } else {
        Err(FieldFault::Fault { left: bytes.len() })
    }
}

/// The kind of the global.
#[tactic(auto, unfolding(crate::specs::Reading::kind_at))]
fn read_kind<'a>(first: Option<Known>, bytes: &'a [u8]) -> Result<(Kind, &'a [u8]), FieldFault>
    ensures found { AnswersField (λ x. (x.0, x.1.now)) result (kind_at (option_map known_web first.entry) bytes.now) }
    ensures no_memory { IfErr result (λ e. e ≢ FieldFault.NoMemory) }
{
    let (kind, rest) = read_scalar(bytes)?;
    if fits_kind(first, kind) {
        Ok((kind, rest))
    } else {
        Err(FieldFault::Fault { left: bytes.len() })
    }
}

/// A register that a callee keeps and that no web of the function before has.
#[tactic(auto, unfolding(crate::specs::Reading::register_at))]
fn read_register<'a>(
    first: Option<Known>,
    own: &[(Web, Role)],
    bytes: &'a [u8],
) -> Result<(u8, &'a [u8]), FieldFault>
    ensures found { AnswersField (λ x. (x.0, x.1.now)) result (register_at (option_map known_web first.entry) (map (λ w. w.0) own.now) bytes.now) }
    ensures no_memory { IfErr result (λ e. e ≢ FieldFault.NoMemory) }
{
    let (reg, rest) = read_u8(bytes)?;
    if FIRST_REGISTER <= reg
        && reg <= LAST_REGISTER
        && fits_register(first, reg)
        && is_register_free(own, reg)
    {
        Ok((reg, rest))
    } else {
        Err(FieldFault::Fault { left: bytes.len() })
    }
}

/// Whether a function of the web writes the global.
#[tactic(auto, unfolding(crate::specs::Reading::writes_at))]
fn read_writes<'a>(first: Option<Known>, bytes: &'a [u8]) -> Result<(bool, &'a [u8]), FieldFault>
    ensures found { AnswersField (λ x. (x.0, x.1.now)) result (writes_at (option_map known_web first.entry) bytes.now) }
    ensures no_memory { IfErr result (λ e. e ≢ FieldFault.NoMemory) }
{
    let (writes, rest) = read_flag(bytes)?;
    if fits_writes(first, writes) {
        Ok((writes, rest))
    } else {
        Err(FieldFault::Fault { left: bytes.len() })
    }
}

/// A role.
#[tactic(auto, unfolding(crate::specs::Reading::role_at))]
fn read_role(bytes: &[u8]) -> Result<(Role, &[u8]), FieldFault>
    ensures found { AnswersField (λ x. (x.0, x.1.now)) result (role_at bytes.now) }
    ensures no_memory { IfErr result (λ e. e ≢ FieldFault.NoMemory) }
{
    let (code, rest) = read_choice(2, bytes)?;
    Ok((if code == 0 { Role::Entry } else { Role::Member }, rest))
}

/// A web behind others.
#[tactic(auto, unfolding(crate::specs::Reading::web_at))]
fn read_web<'a, 'b>(
    names: &'b [Name],
    seen: &Seen<'b>,
    own: &[(Web, Role)],
    bytes: &'a [u8],
) -> Result<((Known<'b>, Role), &'a [u8]), FieldFault>
    ensures found { AnswersField (λ x. ((known_web x.0.0, x.0.1), x.1.now)) result (web_at names.now (map known_web seen.now.webs.items) (map (λ w. w.0) own.now) bytes.now) }
    ensures no_memory { IfErr result (λ e. e ≢ FieldFault.NoMemory) }
{
    let (id, rest) = read_number(own, bytes)?;
    let first = seen.first(id);
    let (global, rest) = read_global(names, first, own, rest)?;
    let (kind, rest) = read_kind(first, rest)?;
    let (reg, rest) = read_register(first, own, rest)?;
    let (writes, rest) = read_writes(first, rest)?;
    let (role, rest) = read_role(rest)?;
    let web = Known {
        id,
        global,
        kind,
        reg,
        writes,
    };
    Ok(((web, role), rest))
}

/// So many webs of a function, behind those of the functions before it.
fn read_webs<'a, 'b>(
    alloc: Global,
    names: &'b [Name],
    before: Seen<'b>,
    count: u32,
    bytes: &'a [u8],
) -> Result<(Items<(Web, Role)>, Seen<'b>, &'a [u8]), FieldFault>
    ensures found { AnswersField (λ x. (x.0, x.2.now)) result (webs_at names.now (map known_web before.entry.webs.items) count bytes.now) }
    ensures seen { IfOk result (λ x. map known_web x.1.webs.items ≡ map known_web before.entry.webs.items ++ map (λ w. w.0) x.0) }
{
    let mut webs: Items<(Web, Role)> = Items::new(alloc);
    let mut seen = before;
    let mut rest = bytes;
    for _ in 0..count {
        let ((known, role), after) = read_web(names, &seen, webs.as_slice(), rest)?;
        webs.push((known.web(alloc)?, role))?;
        seen = seen.with(known)?;
        rest = after;
    }
    Ok((webs, seen, rest))
}

/// A function behind others, its name in the table.
#[tactic(auto, unfolding(crate::specs::Reading::function_at))]
fn read_function<'a, 'b>(
    alloc: Global,
    version: u32,
    names: &'b [Name],
    before: Option<&Name>,
    seen: Seen<'b>,
    bytes: &'a [u8],
) -> Result<((&'b Name, Directives), Seen<'b>, &'a [u8]), FieldFault>
    ensures found { AnswersField (λ x. ((x.0.0.now, x.0.1), x.2.now)) result (function_at version names.now (record { name = option_map (λ n. n.now) before.entry; webs = map known_web seen.entry.webs.items }) bytes.now) }
    ensures seen { IfOk result (λ x. map known_web x.1.webs.items ≡ map known_web seen.entry.webs.items ++ webs_of x.0.1) }
{
    let (name, rest) = read_name_above(names, StartName::Allowed, before, bytes)?;
    let (count, rest) = read_u32(rest)?;
    let (webs, seen, rest) = read_webs(alloc, names, seen, count, rest)?;
    let (Sharing { free, saves }, rest) = read_sharing(alloc, version, rest)?;
    Ok(((name, Directives { webs, free, saves }), seen, rest))
}

/// So many functions.
fn read_function_items<'a>(
    alloc: Global,
    version: u32,
    names: &[Name],
    count: u32,
    bytes: &'a [u8],
) -> Result<(Items<(Name, Directives)>, &'a [u8]), FieldFault>
    ensures { AnswersField (λ x. (x.0, x.1.now)) result (items_at (function_at version names.now) next_function count nothing_before bytes.now) }
{
    let mut functions = Items::new(alloc);
    let mut seen = Seen::new(alloc);
    let mut before: Option<&Name> = None;
    let mut rest = bytes;
    for _ in 0..count {
        let ((name, directives), more, after) = read_function(
            alloc, version, names, before, seen, rest,
        )?;
        functions.push((name.copy(alloc)?, directives))?;
        seen = more;
        before = Some(name);
        rest = after;
    }
    Ok((functions, rest))
}

/// The count of functions, and the functions.
#[tactic(auto, unfolding(crate::specs::Reading::functions_at))]
fn read_functions<'a>(
    alloc: Global,
    version: u32,
    names: &[Name],
    bytes: &'a [u8],
) -> Result<(Items<(Name, Directives)>, &'a [u8]), FieldFault>
    ensures { AnswersField (λ x. (x.0, x.1.now)) result (functions_at version names.now bytes.now) }
{
    let (count, rest) = read_u32(bytes)?;
    read_function_items(alloc, version, names, count, rest)
}

// ---- the payload

/// The rule that is looked at last: each name of the table is used, where so many bytes are left behind the
/// table.
fn check_last(
    alloc: Global,
    names: &[Name],
    functions: &[(Name, Directives)],
    behind: usize,
) -> Result<(), FieldFault>
    requires { length (flat_map text names.now) + behind < 2 ^ 64 }
    ensures { AnswersField (λ x. x) result (broken_at (first_unused names.now (names_of functions.now) behind)) }
{
    let refs = refs_of(alloc, functions)?;
    let used = used_names(alloc, &refs)?;
    check_used(alloc, names, used, behind)
}

/// The database behind the table of names, how many bytes are left from the count of its functions on, and what is left
/// behind it.
#[tactic(auto, unfolding(crate::specs::Reading::fields_at))]
fn read_parts<'a>(
    alloc: Global,
    version: u32,
    names: &[Name],
    bytes: &'a [u8],
) -> Result<(Database, usize, &'a [u8]), FieldFault>
    ensures found { IfOk result (λ x. (rule : AnyDatabase → ℕ → Option ℕ) → fields_at version names.now rule bytes.now ≡ ended (rule x.0 x.1) (record { names = names.now; value = x.0 }) x.2.now) }
    ensures fault { IfErr result (λ e. (rule : AnyDatabase → ℕ → Option ℕ) → Fails e (fields_at version names.now rule bytes.now)) }
{
    let (functions, rest) = read_functions(alloc, version, names, bytes)?;
    Ok((Database { version, functions }, bytes.len(), rest))
}

/// Database files, which are read as all files of the compiler are.
struct DatabaseFormat;

impl Format for DatabaseFormat {
    type Value = Database;

    const KIND: u32 = KIND;

    ghost KIND = { kind_of_file };

    const FIRST: u32 = FIRST;

    ghost FIRST = { first_version };

    const VERSION: u32 = VERSION;

    ghost VERSION = { database_version };

    ghost fields = { fields_at };

    ghost late = { unused_rule };

    fn read_parts<'a>(
        alloc: Global,
        version: u32,
        names: &[Name],
        bytes: &'a [u8],
    ) -> Result<(Database, usize, &'a [u8]), FieldFault> {
        read_parts(alloc, version, names, bytes)
    }

    fn check_late(
        alloc: Global,
        names: &[Name],
        value: &Database,
        behind: usize,
        _place: usize,
    ) -> Result<(), FieldFault> {
        check_last(alloc, names, value.functions.as_slice(), behind)
    }
}

/// The database of a whole file.
fn read_alone(alloc: Global, bytes: &[u8]) -> Result<Database, FileError>
    ensures { GivesFile (λ db. db) result (value_of (database_file_at bytes.now)) }
{
    read_value::<DatabaseFormat>(alloc, bytes)
}

/// The database that the bytes are the file of. A fault is the first field, in order, that is short or
/// breaks its rule.
pub fn read(alloc: Global, bytes: &[u8]) -> Result<Database, FileError>
    // The bytes are the file of what is read.
    ensures found { IfOk result (λ db. IsDatabaseFile bytes.now db) }
    // A file of a database is read, unless memory runs out.
    ensures only { (db : AnyDatabase) → IsDatabaseFile bytes.now db → GivesFile (λ db. db) result (Ok db) }
    // Which fault it is.
    ensures exact { GivesFile (λ db. db) result (value_of (database_file_at bytes.now)) }
    // The same of its functions alone.
    ensures functions { GivesFile (λ db. db.functions) result (functions_in (value_of (database_file_at bytes.now))) }
    ensures lawful { IfOk result (λ db. IsDatabase db.functions) }
    ensures versioned { IfOk result (λ db. IsVersioned db) }
{
    read_alone(alloc, bytes)
}

/// The database of a payload, without its table of names.
fn read_payload_alone(alloc: Global, bytes: &[u8]) -> Result<Database, FileError>
    ensures { GivesFile (λ db. db) result (value_of (placed (length bytes.now) (payload_at bytes.now))) }
{
    match read_contents::<DatabaseFormat>(alloc, VERSION, bytes) {
        Err(e) => Err(e.at(bytes.len())),
        Ok(((_names, db), _)) => Ok(db),
    }
}

/// The functions of a database, alone.
fn functions_of(db: Database) -> Items<(Name, Directives)>
    ensures { result ≡ db.functions }
{
    let Database {
        version: _,
        functions,
    } = db;
    functions
}

/// The functions that the bytes are the payload of. A fault is the first field, in order, that is short
/// or breaks its rule, told by its offset in the payload.
pub fn read_payload(alloc: Global, bytes: &[u8]) -> Result<Items<(Name, Directives)>, FileError>
    // The bytes are the payload of what is read.
    ensures found { IfOk result (λ fs. IsPayload bytes.now fs) }
    // A payload is read, unless memory runs out.
    ensures only { (fs : List (List ℕ × AnyDirectives)) → IsPayload bytes.now fs → GivesFile (λ fs. fs) result (Ok fs) }
    // Which fault it is.
    ensures exact { GivesFile newest result (value_of (placed (length bytes.now) (payload_at bytes.now))) }
{
    match read_payload_alone(alloc, bytes) {
        Ok(db) => Ok(functions_of(db)),
        Err(e) => Err(e),
    }
}
