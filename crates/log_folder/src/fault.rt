//! Why a log is not taken, closed or mended.

use log_turning::TurnFault;
use node_service::ServiceFault;
use std::alloc::AllocError;
use std::io;
use thiserror::Error;

/// Why a log is not taken.
#[derive(Debug, Drop, Error)]
pub enum TakeFault {
    /// A call of the system failed.
    #[error("{0}")]
    Io(io::Error),
    /// Its file could not be opened, or made.
    #[error("{0}")]
    Unopened(io::Error),
    /// A sync of the log failed, and nobody has looked since.
    #[error("a sync of the log failed")]
    SyncFailed,
    /// Another process has the log, or closed it meanwhile.
    #[error("another process has the log")]
    Busy,
}

impl From<io::Error> for TakeFault {
    ghost use Rattle.std.specs.Prelude.{◌≡◌};
    ghost use Rattle.log_folder.specs.declared.fault.TakeFault.TheVariants.{Io};

    ghost from_gives = { λ error e. e ≡ Io error };

    fn from(error: io::Error) -> TakeFault {
        TakeFault::Io(error)
    }
}

/// Why a log is not closed. Want of memory may stand in place of any answer.
#[derive(Debug, Drop, Error)]
pub enum CloseFault {
    /// Memory was refused.
    #[error("out of memory")]
    OutOfMemory,
    /// A call of the system failed: nothing is done after it.
    #[error("{0}")]
    Io(io::Error),
    /// The closed log got no name of its own, which has this many calls in it.
    #[error("{1}")]
    Unlinked(u64, io::Error),
    /// Its node is not served from it.
    #[error("{0}")]
    Refused(ServiceFault),
    /// The node tells no record of itself when it has stopped, or has made more calls than can be counted.
    #[error("the node leaves no record")]
    NoRecord,
}

impl From<AllocError> for CloseFault {
    ghost use Rattle.std.specs.Prelude.{◌≡◌};
    ghost use Rattle.log_folder.specs.declared.fault.CloseFault.TheVariants.{OutOfMemory};

    ghost from_gives = { λ _ e. e ≡ OutOfMemory };

    fn from(_refused: AllocError) -> CloseFault {
        CloseFault::OutOfMemory
    }
}

impl From<io::Error> for CloseFault {
    ghost use Rattle.std.specs.Prelude.{◌≡◌};
    ghost use Rattle.log_folder.specs.declared.fault.CloseFault.TheVariants.{Io};

    ghost from_gives = { λ error e. e ≡ Io error };

    fn from(error: io::Error) -> CloseFault {
        CloseFault::Io(error)
    }
}

impl From<TurnFault> for CloseFault {
    ghost use Rattle.std.specs.Prelude.{◌≡◌};
    ghost use Rattle.log_folder.specs.Plans.{unturned};

    ghost from_gives = { λ fault e. e ≡ unturned fault };

    fn from(fault: TurnFault) -> CloseFault {
        match fault {
            TurnFault::OutOfMemory => CloseFault::OutOfMemory,
            TurnFault::Refused(why) => CloseFault::Refused(why),
            TurnFault::NoRecord => CloseFault::NoRecord,
        }
    }
}

/// Why nothing is told of a log that may be damaged.
#[derive(Debug, Drop, Error)]
pub enum MendFault {
    /// The file could not be read.
    #[error("{0}")]
    Io(io::Error),
    /// The log is refused, and not for a damage; or memory was.
    #[error("{0}")]
    Refused(ServiceFault),
}

impl From<io::Error> for MendFault {
    ghost use Rattle.std.specs.Prelude.{◌≡◌};
    ghost use Rattle.log_folder.specs.declared.fault.MendFault.TheVariants.{Io};

    ghost from_gives = { λ error e. e ≡ Io error };

    fn from(error: io::Error) -> MendFault {
        MendFault::Io(error)
    }
}

/// Why nothing is told of a log that is to be repaired.
#[derive(Debug, Drop, Error)]
pub enum RepairFault {
    /// Memory was refused.
    #[error("out of memory")]
    OutOfMemory,
    /// It is not known how the log is.
    #[error("{0}")]
    Unmended(MendFault),
}

/// Why a log is not repaired, once it is told how it is.
#[derive(Debug, Drop, Error)]
pub enum Unrepaired {
    /// It is damaged at this place, and nothing was to be cut.
    #[error("the log is damaged at byte {0}, and stays as it is")]
    Damaged(usize),
    /// The place that was typed is not that of the damage, which is this one.
    #[error("the damage is at byte {0}, and nothing is cut elsewhere")]
    OtherPlace(usize),
    /// It was to be cut, and is not damaged.
    #[error("the log is not damaged, and nothing is cut")]
    NotDamaged,
    /// A call of the system failed while it was cut: nothing was done after it.
    #[error("{0}")]
    Io(io::Error),
}

/// Why a new file is not written.
#[derive(Debug, Drop, Error)]
pub enum WriteFault {
    /// It could not be made.
    #[error("{0}")]
    Unmade(io::Error),
    /// A later call of the system failed: nothing was done after it.
    #[error("{0}")]
    Io(io::Error),
}

impl From<io::Error> for WriteFault {
    ghost use Rattle.std.specs.Prelude.{◌≡◌};
    ghost use Rattle.log_folder.specs.declared.fault.WriteFault.TheVariants.{Io};

    ghost from_gives = { λ error e. e ≡ Io error };

    fn from(error: io::Error) -> WriteFault {
        WriteFault::Io(error)
    }
}
