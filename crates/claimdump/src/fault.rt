//! Why there is nothing to be dumped.

ghost use Rattle.std.specs.Prelude.{◌≡◌};
ghost use Rattle.claimdump.specs.declared.fault.DumpFault.TheVariants.{OutOfMemory};

use std::alloc::{AllocError, AllocFailed};
use thiserror::Error;
use world_setup::WorldFault;

/// Why there is nothing to be dumped.
#[derive(Debug, Drop, Error)]
pub(crate) enum DumpFault {
    /// Memory was refused.
    #[error("out of memory")]
    OutOfMemory,
    /// The settings spell none: what is wrong in them.
    #[error("settings refused: {0}")]
    Settings(String),
    /// No world takes the settings.
    #[error("settings refused: {0}")]
    World(WorldFault),
    /// The line of this number, from 1, is the first that spells no event.
    #[error("line {0} refused")]
    Line(u64),
}

impl From<AllocError> for DumpFault {
    ghost from_gives = { λ _ fault. fault ≡ OutOfMemory };

    fn from(_refused: AllocError) -> DumpFault {
        DumpFault::OutOfMemory
    }
}

impl<T: Drop> From<AllocFailed<T>> for DumpFault {
    ghost from_gives = { λ _ fault. fault ≡ OutOfMemory };

    fn from(_refused: AllocFailed<T>) -> DumpFault {
        DumpFault::OutOfMemory
    }
}
