//! Why a node is not served to the end of its input.

ghost use Rattle.std.specs.Prelude.{◌≡◌};
ghost use Rattle.node_process.specs.declared.unserved.Unserved.TheVariants.{Io, OutOfMemory};

use node_service::ServiceFault;
use std::alloc::AllocError;
use std::io;
use thiserror::Error;

/// Why a node is not served to the end of its input. Where memory was refused, what was not said is in no log.
#[derive(Debug, Drop, Error)]
pub enum Unserved {
    /// Memory was refused.
    #[error("out of memory")]
    OutOfMemory,
    /// The settings, the node or its log are refused.
    #[error("{0}")]
    Refused(ServiceFault),
    /// The log, and the closed ones before it, have fewer calls than they are known to have: this many.
    #[error("the log has {0} calls, fewer than it is known to have")]
    FewCalls(u64),
    /// A line is longer than the most bytes that a line may have.
    #[error("a line is longer than 16 MiB")]
    LongLine,
    /// More turns than can be counted.
    #[error("too many turns")]
    TooManyTurns,
    /// A call of the system failed.
    #[error("{0}")]
    Io(io::Error),
}

impl From<AllocError> for Unserved {
    ghost from_gives = { λ _ why. why ≡ OutOfMemory };

    fn from(_refused: AllocError) -> Unserved {
        Unserved::OutOfMemory
    }
}

impl From<io::Error> for Unserved {
    ghost from_gives = { λ error why. why ≡ Io error };

    fn from(error: io::Error) -> Unserved {
        Unserved::Io(error)
    }
}
