//! What comes of C sources.

ghost use Rattle.std.specs.Prelude.{◌≡◌, ◌≢◌, IfErr, true};
ghost use Rattle.std.proofs.Props.{props};
ghost use Rattle.pw_cpp_directives.specs.declared.fault.CppKind.TheVariants.{NoMemory};
ghost use Rattle.pw_store_modules.specs.Modules.{is_module_name};

use pw_cpp::CppFault;
use pw_value::Name;

/// What comes of a module's C source: the text that is compiled, or the preprocessor's first fault, which is never want of memory.
#[derive(Drop)]
pub struct Compiled {
    pub name: Name,
    pub output: Result<Vec<u8>, CppFault>,
    ghost named: { is_module_name name ≡ true },
    ghost proper: { IfErr output (λ fault. fault.kind ≢ NoMemory) } by { Prim.hlevel props },
}

/// What comes of the C sources of a store, and the bytes of its sources and headers together, each as far as texts are read.
#[derive(Drop)]
pub struct Outcomes {
    pub outputs: Vec<Compiled>,
    pub bytes: u64,
}
