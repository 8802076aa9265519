//! The laws that the places of temporaries serve.

ghost use Rattle.pw_law_temps.specs.Laws.{TemporariesServe, TemporariesServePrograms};

use pw_alloc_temps::laws::registers_keep_apart;
use pw_live::laws::{longer_paths_add_nothing, operations_interfere};

/// The places that allocation gives serve: no value is lost that is still needed, what is needed behind
/// a call stands where the call leaves it, no temporary stands in the register of a web, and exactly those registers are
/// saved that the function changes and its callers may hold.
pub fn temporaries_serve()
    ensures { TemporariesServe }
{
    longer_paths_add_nothing();
    operations_interfere();
    registers_keep_apart();
}

/// The places that allocation gives serve all functions of every program under a lawful database.
pub fn temporaries_serve_programs()
    ensures { TemporariesServePrograms }
{
    temporaries_serve();
}
