//! Whether names are distinct.

ghost use Rattle.std.specs.Prelude.{◌↔◌, map, IsTrue, IfOk};
ghost use Rattle.pw_flow.specs.ValidFlow.{AreDistinct};

use pw_scope::Scopes;
use pw_value::Name;
use std::alloc::{AllocError, Global};

/// Whether no two of the names are one. Each is looked up among those before it.
pub fn are_distinct(alloc: Global, names: &[&Name]) -> Result<bool, AllocError>
    ensures { IfOk result (λ distinct. IsTrue distinct ↔ AreDistinct (map (λ name. name.now) names.now)) }
{
    let mut met = Scopes::new(alloc);
    for name in names {
        if met.visible(name.as_bytes()).is_some() {
            return Ok(false);
        }
        met.declare(name.as_bytes(), ())?;
    }
    Ok(true)
}
