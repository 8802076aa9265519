//! The registers that a function saves.

ghost use Rattle.std.specs.Prelude.{◌≡◌, ◌&&◌, not, ◌++◌, ◌≤◌, ◌+◌, ◌-◌, IfOk, OnOk};
ghost use Rattle.pw_db.specs.Limits.{first_register, last_register, register_count};
ghost use Rattle.pw_live.specs.Liveness.{has, is_that};
ghost use Rattle.pw_alloc_temps.specs.Temporaries.{is_given, is_saved};
ghost use Rattle.pw_allocate.specs.Saving.{saved_from};

use pw_alloc::is_entered;
use pw_db::{Directives, FIRST_REGISTER, LAST_REGISTER};
use pw_items::Items;
use std::alloc::{AllocError, Global};

/// Whether a register is the one that a temporary was given.
fn is_that(given: Option<u8>, r: u8) -> bool
    ensures { result ≡ is_that given r }
{
    match given {
        Some(q) => q == r,
        None => false,
    }
}

/// Whether some temporary has a register.
fn is_given(registers: &[Option<u8>], r: u8) -> bool
    ensures { result ≡ is_given registers.now r }
{
    for &given in registers {
        if is_that(given, r) {
            return true;
        }
    }
    false
}

/// Whether a register is one of some.
fn is_among(registers: &[u8], r: u8) -> bool
    ensures { result ≡ has r registers.now }
{
    for &register in registers {
        if register == r {
            return true;
        }
    }
    false
}

/// Whether a temporary has a register that the function is not free to use.
fn is_own(directives: &Directives, registers: &[Option<u8>], r: u8) -> bool
    ensures { result ≡ (not (has r directives.now.free) && is_given registers.now r) }
{
    if is_among(directives.free.as_slice(), r) {
        false
    } else {
        is_given(registers, r)
    }
}

/// Whether a function saves a register: it enters a web of it, saves it for others, or a temporary has it which it is not free
/// to use.
fn is_saved(directives: &Directives, registers: &[Option<u8>], r: u8) -> bool
    ensures { result ≡ is_saved directives.now registers.now r }
{
    is_entered(directives.webs.as_slice(), r)
        || (is_among(directives.saves.as_slice(), r) || is_own(directives, registers, r))
}

/// The register behind the others, where the function saves it.
fn put_saved(
    saved: &mut Items<u8>,
    directives: &Directives,
    registers: &[Option<u8>],
    r: u8,
) -> Result<(), AllocError>
    requires { r ≤ last_register }
    ensures { OnOk result (saved.new ++ saved_from directives.now registers.now (r + 1) (last_register + 1 - (r + 1)) ≡ saved.old ++ saved_from directives.now registers.now r (last_register + 1 - r)) }
{
    if is_saved(directives, registers, r) {
        saved.push(r)?;
    }
    Ok(())
}

/// The registers that a function saves, of those that a callee keeps.
pub(crate) fn saved(
    alloc: Global,
    directives: &Directives,
    registers: &[Option<u8>],
) -> Result<Items<u8>, AllocError>
    ensures { IfOk result (λ saved. saved ≡ saved_from directives.now registers.now first_register register_count) }
{
    let mut saved = Items::new(alloc);
    for r in FIRST_REGISTER..LAST_REGISTER + 1 {
        put_saved(&mut saved, directives, registers, r)?;
    }
    Ok(saved)
}
