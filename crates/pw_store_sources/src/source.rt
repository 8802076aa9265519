//! A C source of a module.

ghost use Rattle.std.specs.Prelude.{◌≡◌, true};
ghost use Rattle.pw_store_modules.specs.Modules.{is_module_name};

use pw_value::Name;

/// A C source: its module's name, and its text as far as it is read.
#[derive(Drop)]
pub struct Source {
    pub name: Name,
    pub text: Vec<u8>,
    ghost named: { is_module_name name ≡ true },
}
