//! The names of the files of a program.

ghost use Rattle.std.specs.Prelude.{◌≡◌, ◌++◌, true, IfOk, string_bytes};
ghost use Rattle.pw_store_modules.specs.FileNames.{database_name, image_name, text_ending, flow_ending, summary_ending, object_ending};
ghost use Rattle.pw_store_modules.specs.Modules.{is_module_name};

use pw_value::Name;
use std::alloc::{AllocError, Global};

/// The name of the file of the database of directives.
pub const DATABASE_NAME: &str = "prog.db";

/// The file of the image, which the machine runs.
pub const IMAGE_NAME: &str = "prog.img";

/// The ending of the file of a module's text, behind the module's name.
pub const TEXT_ENDING: &str = ".i";

/// The ending of the file of a module's flow graph.
pub const FLOW_ENDING: &str = ".flow";

/// The ending of the file of a module's summary.
pub const SUMMARY_ENDING: &str = ".sum";

/// The ending of the file of a module's object.
pub const OBJECT_ENDING: &str = ".obj";

/// The names are those that the definitions speak of.
pub fn names_of_files()
    ensures database { DATABASE_NAME.now ≡ database_name }
    ensures image { IMAGE_NAME.now ≡ image_name }
    ensures text { TEXT_ENDING.now ≡ text_ending }
    ensures flow { FLOW_ENDING.now ≡ flow_ending }
    ensures summary { SUMMARY_ENDING.now ≡ summary_ending }
    ensures object { OBJECT_ENDING.now ≡ object_ending }
{}

/// The name of a module's file of one kind: the module's name, and the ending of the kind behind it.
pub fn file_of(alloc: Global, stem: &str, ending: &str) -> Result<String, AllocError>
    ensures { IfOk result (λ name. string_bytes name ≡ stem.now ++ ending.now) }
{
    let mut name = String::from_str(alloc, stem)?;
    name.push_str(ending)?;
    Ok(name)
}

/// A module's name as text.
fn name_text(name: &Name) -> &str
    requires { is_module_name name.now ≡ true }
    ensures { result.now ≡ name.now }
{
    match str::from_utf8(name.as_bytes()) {
        Ok(text) => text,
        Err(_bad) => unreachable!(),
    }
}

/// The name of a module's file of one kind.
pub fn module_file(alloc: Global, name: &Name, ending: &str) -> Result<String, AllocError>
    requires { is_module_name name.now ≡ true }
    ensures { IfOk result (λ file. string_bytes file ≡ name.now ++ ending.now) }
{
    file_of(alloc, name_text(name), ending)
}
