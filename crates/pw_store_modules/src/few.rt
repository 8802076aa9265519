//! The count of modules, of which there are not too many.

ghost use Rattle.std.specs.Prelude.{◌≡◌, ◌≤◌, ◌<◌, IfErr, OnOk};
ghost use Rattle.pw_value.specs.Limits.{module_limit};

use pw_io::StoreError;
use pw_value::limits::MODULE_LIMIT;
use std::alloc::AllocError;

/// Why the modules of a store are not told.
#[derive(Clone, Copy, Debug)]
pub enum ModulesFault {
    /// There are more than `MODULE_LIMIT`, so many.
    TooMany(u64),
    /// The store had a fault, or memory ran out.
    Store(StoreError),
}

impl From<StoreError> for ModulesFault {
    ghost use Rattle.std.specs.Prelude.{◌≡◌};
    ghost use Rattle.pw_store_modules.specs.declared.few.ModulesFault.TheVariants.{Store};

    ghost from_gives = { λ error fault. fault ≡ Store error };

    fn from(error: StoreError) -> ModulesFault {
        ModulesFault::Store(error)
    }
}

impl From<AllocError> for ModulesFault {
    ghost use Rattle.std.specs.Prelude.{◌≡◌};
    ghost use Rattle.pw_io.specs.declared.StoreError.TheVariants.{NoMemory};
    ghost use Rattle.pw_store_modules.specs.declared.few.ModulesFault.TheVariants.{Store};

    ghost from_gives = { λ _ fault. fault ≡ Store NoMemory };

    fn from(_error: AllocError) -> ModulesFault {
        ModulesFault::Store(StoreError::NoMemory)
    }
}

/// Answers whether there may be so many modules.
///
/// # Errors
///
/// `TooMany` with their count, where there are more than `MODULE_LIMIT`.
pub fn check_count(count: usize) -> Result<(), ModulesFault>
    ensures few { OnOk result (count ≤ module_limit) }
    ensures many { IfErr result (λ fault. (fault ≡ ModulesFault.TooMany count) × (module_limit < count)) }
{
    let many = count as u64;
    if many > MODULE_LIMIT {
        return Err(ModulesFault::TooMany(many));
    }
    Ok(())
}
