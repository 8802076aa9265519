//! Modules and their files: which files are theirs, and their order.

ghost use Rattle.std.specs.Prelude.{◌≡◌, ◌≤◌, true, map, IfOk, OnOk, IfSome, string_bytes, length, take, ◌-◌, fold, [], count_by, All, vec_len};
ghost use Rattle.std.specs.List.{list_all, position_or_len};
ghost use Rattle.std.specs.FinMap as finite;
ghost use Rattle.pw_io.specs.Files.{Files};
ghost use Rattle.pw_store_modules.specs.Modules.{is_name_byte, is_module_name, is_module_file, IsModuleFile, modules_of, stem, text_read};
ghost use Rattle.pw_store_modules.specs.Reading.{is_file_before, placed, with_file, module_files, sources_of};

use crate::file_names::TEXT_ENDING;
use crate::limits::MODULE_NAME_LIMIT;
use pw_value::Name;
use std::alloc::{AllocError, Global};

/// A module: its name, and its text as far as it is read.
#[derive(Drop)]
pub struct Module {
    pub name: Name,
    pub text: Vec<u8>,
    ghost read: { length text.items ≤ text_read },
    ghost named: { is_module_name name ≡ true },
}

/// Whether a byte may stand in a module's name.
fn is_name_byte(byte: u8) -> bool
    ensures { result ≡ is_name_byte byte }
{
    byte.is_ascii_alphanumeric() || byte == b'_' || byte == b'-'
}

/// Whether all bytes may stand in a module's name.
fn are_name_bytes(name: &[u8]) -> bool
    ensures { result ≡ list_all is_name_byte name.now }
{
    name.iter().all(|byte| is_name_byte(*byte))
}

/// Whether a module may have this name: 1 to `MODULE_NAME_LIMIT` letters, digits, `_` or `-`.
pub fn is_module_name(name: &[u8]) -> bool
    ensures { result ≡ is_module_name name.now }
{
    if name.is_empty() || name.len() > MODULE_NAME_LIMIT {
        return false;
    }
    are_name_bytes(name)
}

/// Whether a file of a store is a module's text: the name of a module, and `.i` behind it.
pub fn is_module_file(file: &[u8]) -> bool
    ensures { result ≡ is_module_file file.now }
{
    if file.len() < 2 {
        return false;
    }
    let (name, ending) = file.split_at(file.len() - 2);
    ending == TEXT_ENDING.as_bytes() && is_module_name(name)
}

/// The name of a file without its last two bytes.
pub fn stem(file: &str) -> &[u8]
    ensures { result.now ≡ stem file.now }
{
    let bytes = file.as_bytes();
    bytes.split_at(bytes.len().saturating_sub(2)).0
}

/// Whether the module of one file stands before that of another.
fn is_file_before(file: &str, other: &str) -> bool
    ensures { result ≡ is_file_before file.now other.now }
{
    stem(file).cmp(stem(other)).is_lt()
}

/// Puts a file into its place among files in the order of their modules.
fn place(files: &mut Vec<String>, file: String) -> Result<(), AllocError>
    ensures { OnOk result (map string_bytes files.new.items ≡ placed (map string_bytes files.old.items) (string_bytes file)) }
{
    let at = first_behind(files, file.as_str());
    files.insert(at, file)?;
    Ok(())
}

/// The place of the first file whose module stands behind that of `file`, or the end.
fn first_behind(files: &[String], file: &str) -> usize
    ensures place { result ≡ position_or_len (is_file_before file.now) (map string_bytes files.now) }
    ensures within { result ≤ length files.now }
{
    for (i, other) in files.iter().enumerate() {
        if is_file_before(file, other.as_str()) {
            return i;
        }
    }
    files.len()
}

/// Puts a name into its place among the modules' files, where it is a module's file.
fn place_module(files: &mut Vec<String>, name: &String) -> Result<(), AllocError>
    ensures { OnOk result (map string_bytes files.new.items ≡ with_file (map string_bytes files.old.items) (string_bytes name.now)) }
{
    if !is_module_file(name.as_bytes()) {
        return Ok(());
    }
    place(files, name.clone()?)
}

/// Puts the modules' files among these in order.
fn placed_modules(alloc: Global, names: &[String]) -> Result<Vec<String>, AllocError>
    ensures { IfOk result (λ files. map string_bytes files.items ≡ module_files (map string_bytes names.now)) }
{
    let mut files = Vec::new(alloc);
    for name in names {
        place_module(&mut files, name)?;
    }
    Ok(files)
}

/// The modules' files among these, in the order of the modules' names. Of the names of all files of a store they are the files of its
/// modules, which `read_sources` reads.
pub fn module_files(alloc: Global, names: &[String]) -> Result<Vec<String>, AllocError>
    ensures files { IfOk result (λ found. map string_bytes found.items ≡ module_files (map string_bytes names.now)) }
    ensures modules { IfOk result (λ found. All (λ file. IsModuleFile (string_bytes file)) found.items) }
    ensures sources { (files : Files) → map string_bytes names.now ≡ finite.keys files → IfOk result (λ found. sources_of files (map string_bytes found.items) ≡ modules_of files) }
    ensures count { (files : Files) → map string_bytes names.now ≡ finite.keys files → IfOk result (λ found. length found.items ≡ length (modules_of files)) }
{
    placed_modules(alloc, names)
}
