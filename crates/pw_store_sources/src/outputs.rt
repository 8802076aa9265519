//! What the preprocessor makes of a module's C source.

ghost use Rattle.std.specs.Prelude.{◌≡◌, ◌≢◌, IfErr, IfOk, OnOk, true};
ghost use Rattle.pw_cpp_sources.specs.Sources.{texts_of};
ghost use Rattle.pw_store_modules.specs.Modules.{is_module_name};
ghost use Rattle.pw_store_sources.specs.Outputs.{ComesBy, output_of};

use crate::names::source_name;
use pw_cpp::{CppFault, CppKind, preprocess};
use pw_value::Name;
use std::alloc::{AllocError, Global};

/// A fault of a text; want of memory is none.
fn fault_of_text(fault: CppFault) -> Result<CppFault, AllocError>
    ensures same { IfOk result (λ found. found ≡ fault) }
    ensures proper { IfOk result (λ found. found.kind ≢ CppKind.NoMemory) }
{
    match &fault.kind {
        CppKind::NoMemory => Err(AllocError),
        _ => Ok(fault),
    }
}

/// What the preprocessor makes of a module's C source among headers, which stay as they are: the source stands behind them for the while.
/// A fault is none for want of memory.
pub fn preprocess_source(
    alloc: Global,
    headers: &mut Vec<(Name, Vec<u8>)>,
    name: &Name,
    text: Vec<u8>,
) -> Result<Result<Vec<u8>, CppFault>, AllocError>
    requires { is_module_name name.now ≡ true }
    ensures comes { IfOk result (λ answer. ComesBy (texts_of headers.old.items) name.now text.items (output_of answer)) }
    ensures proper { IfOk result (λ answer. IfErr answer (λ fault. fault.kind ≢ CppKind.NoMemory)) }
    ensures same { OnOk result (headers.new.items ≡ headers.old.items) }
{
    let file = source_name(alloc, name)?;
    let own = file.copy(alloc)?;
    headers.push((own, text))?;
    let answer = preprocess(alloc, headers.as_slice(), file);
    headers.pop();
    match answer {
        Ok(output) => Ok(Ok(output)),
        Err(fault) => Ok(Err(fault_of_text(fault)?)),
    }
}
