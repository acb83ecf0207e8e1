//! Why settings make no world.

ghost use Rattle.std.specs.Prelude.{◌≡◌};
ghost use Rattle.world_setup.specs.declared.world_fault.WorldFault.TheVariants.{OutOfMemory};

use bin_routes::RoutesFault;
use std::alloc::{AllocError, AllocFailed};
use thiserror::Error;

/// Why settings make no world. The causes are judged in this order, after want of memory, which may stand in
/// place of any answer.
#[derive(Clone, Copy, Debug, PartialEq, Eq, Error)]
pub enum WorldFault {
    /// Memory was refused.
    #[error("out of memory")]
    OutOfMemory,
    /// There are more than 65,535 pharmacies, 4,096 switches or 4,096 payers (own).
    #[error("there are more than 65,535 pharmacies, 4,096 switches or 4,096 payers")]
    TooMany,
    /// There is no pharmacy, no switch or no payer, or a pharmacy's list of switches is empty or names one that is
    /// not there.
    #[error("a pharmacy, a switch or a payer is missing, or a pharmacy names no switch or one that is not there")]
    NoNode,
    /// Two pharmacies have the same service provider qualifier and ID (202-B2, 201-B1).
    #[error("two pharmacies have the same provider qualifier and provider")]
    SameProvider,
    /// A row of routes is bad.
    #[error("{0}")]
    BadRoute(RoutesFault),
}

impl From<AllocError> for WorldFault {
    ghost from_gives = { λ _ e. e ≡ OutOfMemory };

    fn from(_error: AllocError) -> WorldFault {
        WorldFault::OutOfMemory
    }
}

impl<T: Drop> From<AllocFailed<T>> for WorldFault {
    ghost from_gives = { λ _ e. e ≡ OutOfMemory };

    fn from(_error: AllocFailed<T>) -> WorldFault {
        WorldFault::OutOfMemory
    }
}
