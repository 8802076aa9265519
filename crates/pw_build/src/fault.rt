//! Why no program was built.

use pw_front_end::Refusal;
use pw_io::StoreError;
use pw_store_modules::ModulesFault;
use pw_value::{LinkFault, Name, What};
use std::alloc::AllocError;
use thiserror::Error;

/// Why no program was built.
#[derive(Debug, Drop, Error)]
pub enum BuildFault {
    /// The module of this name is refused.
    #[error("a module is refused")]
    Refused(Name, Refusal),
    /// The modules are refused together.
    #[error("the modules are refused together")]
    LinkRefused(LinkFault),
    /// The store had a fault.
    #[error("the store had a fault")]
    StoreFault,
    /// Memory ran out.
    #[error("memory ran out")]
    NoMemory,
}

/// Why no program was built. Where a module is refused, `line` is the line of its text on which it is, counted from 1.
#[derive(Drop)]
pub struct Unbuilt {
    pub fault: BuildFault,
    pub line: Option<usize>,
}

impl From<AllocError> for Unbuilt {
    ghost use Rattle.std.specs.Prelude.{◌≡◌};
    ghost use Rattle.pw_build.specs.declared.fault.BuildFault.TheVariants.{NoMemory};

    ghost from_gives = { λ _ unbuilt. unbuilt.fault ≡ NoMemory };

    fn from(_none: AllocError) -> Unbuilt {
        Unbuilt {
            fault: BuildFault::NoMemory,
            line: None,
        }
    }
}

impl From<StoreError> for Unbuilt {
    ghost use Rattle.std.specs.Prelude.{◌≡◌};
    ghost use Rattle.pw_build.specs.Stores.{store_fault};

    ghost from_gives = { λ error unbuilt. unbuilt.fault ≡ store_fault error };

    fn from(error: StoreError) -> Unbuilt {
        let fault = match error {
            StoreError::Failed => BuildFault::StoreFault,
            StoreError::NoMemory => BuildFault::NoMemory,
        };
        Unbuilt { fault, line: None }
    }
}

impl From<ModulesFault> for Unbuilt {
    ghost use Rattle.std.specs.Prelude.{◌≡◌};
    ghost use Rattle.pw_build.specs.Stores.{modules_fault};

    ghost from_gives = { λ fault unbuilt. unbuilt.fault ≡ modules_fault fault };

    fn from(fault: ModulesFault) -> Unbuilt {
        match fault {
            ModulesFault::TooMany(count) => Unbuilt {
                fault: BuildFault::LinkRefused(LinkFault::TooMany(What::Modules, count)),
                line: None,
            },
            ModulesFault::Store(error) => Unbuilt::from(error),
        }
    }
}
