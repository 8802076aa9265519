//! Whether there is a `main`.

ghost use Rattle.std.specs.Prelude.{◌≡◌, ◌↔◌, IsTrue, Some};
ghost use Rattle.pw_value.specs.ProgramNames.{main_shape};
ghost use Rattle.pw_link_rules.specs.Linking.{HasMain};

use crate::interface::Interface;
use pw_value::program_names::MAIN_SHAPE;

/// Whether a module defines `main` as a function of no parameters that returns an int.
fn is_main_in(each: &Interface) -> bool
    ensures { IsTrue result ↔ (each.now.main ≡ Some main_shape) }
{
    match &each.main {
        Some(shape) => shape.as_bytes() == MAIN_SHAPE,
        None => false,
    }
}

/// Whether some module does.
pub(crate) fn is_main_anywhere(modules: &[Interface]) -> bool
    ensures { IsTrue result ↔ HasMain modules.now }
{
    for each in modules {
        if is_main_in(each) {
            return true;
        }
    }
    false
}
