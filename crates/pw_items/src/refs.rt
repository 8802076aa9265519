//! Items by reference.

ghost use Rattle.std.specs.Prelude.{◌≡◌, map, IfOk};

use std::alloc::{AllocError, Global};

/// Items by reference, in their order.
pub fn refs_of<T>(alloc: Global, items: &[T]) -> Result<Vec<&T>, AllocError>
    ensures { IfOk result (λ v. map (λ item. item.now) v.items ≡ items.now) }
{
    let mut refs = Vec::new(alloc);
    for item in items {
        refs.push(item)?;
    }
    Ok(refs)
}
