//! Names of files whose bytes are texts.

ghost use Rattle.std.specs.Prelude.{◌≡◌, IfOk, true};
ghost use Rattle.pw_store_modules.specs.Modules.{is_module_name};
ghost use Rattle.pw_store_sources.specs.Names as spec;

use pw_cpp::is_header;
use pw_store_modules::{is_module_file, is_module_name, module_file};
use pw_value::Name;
use std::alloc::{AllocError, Global};

/// The ending of the file of a module's C source, behind the module's name.
pub const SOURCE_ENDING: &str = ".c";

/// Whether a file is a module's C source: the name of a module, and `.c` behind it.
pub fn is_source_file(file: &[u8]) -> bool
    ensures { result ≡ spec.is_source_file file.now }
{
    if file.len() < 2 {
        return false;
    }
    let (name, ending) = file.split_at(file.len() - 2);
    ending == SOURCE_ENDING.as_bytes() && is_module_name(name)
}

/// Whether a file is a text: of a module, or a header. These a session may put and remove.
pub fn is_text_file(file: &[u8]) -> bool
    ensures { result ≡ spec.is_text_file file.now }
{
    is_source_file(file) || is_module_file(file) || is_header(file)
}

/// The name of the file of a module's C source.
pub fn source_name(alloc: Global, name: &Name) -> Result<Name, AllocError>
    requires { is_module_name name.now ≡ true }
    ensures { IfOk result (λ file. file ≡ spec.source_name name.now) }
{
    let file = module_file(alloc, name, SOURCE_ENDING)?;
    Name::lawful(alloc, file.as_bytes())
}
