//! Directives of groups that are passed over.

ghost use Rattle.std.specs.Prelude.{◌≡◌, reverse, if◌then◌else◌, Some, None, IfOk};
ghost use Rattle.pw_cpp.specs.Files.{passing};

use pw_cpp_directives::is_opening;
use pw_items::Items;
use std::alloc::AllocError;

/// What the name of a directive that is passed over does to the sections within the group, and whether it may stand there.
pub fn pass_name(nested: &mut Items<bool>, name: &[u8]) -> Result<bool, AllocError>
    ensures { IfOk result (λ stands. passing name.now (reverse nested.old) ≡ (if stands then Some (reverse nested.new) else None)) }
{
    if is_opening(name) {
        nested.push(false)?;
        return Ok(true);
    }
    let Some(behind_else) = nested.pop() else {
        return Ok(true);
    };
    if name == b"elif".as_slice() {
        if behind_else {
            return Ok(false);
        }
        nested.push(behind_else)?;
        return Ok(true);
    }
    if name == b"else".as_slice() {
        if behind_else {
            return Ok(false);
        }
        nested.push(true)?;
        return Ok(true);
    }
    if name == b"endif".as_slice() {
        return Ok(true);
    }
    nested.push(behind_else)?;
    Ok(true)
}
