//! Why a log is not turned over, and why logs are not joined, or begin with what was not left.

use kept_logs::LogFault;
use node_service::ServiceFault;
use std::alloc::AllocError;
use thiserror::Error;

/// Why a log is not turned over. Want of memory may stand in place of any answer.
#[derive(Clone, Copy, Debug, PartialEq, Eq, Error)]
pub enum TurnFault {
    /// Memory was refused.
    #[error("out of memory")]
    OutOfMemory,
    /// Its node is not served from it.
    #[error("{0}")]
    Refused(ServiceFault),
    /// The node tells no record of itself when it has stopped, or has made more calls than can be counted.
    #[error("the node leaves no record")]
    NoRecord,
}

impl From<AllocError> for TurnFault {
    ghost use Rattle.std.specs.Prelude.{◌≡◌};
    ghost use Rattle.log_turning.specs.declared.fault.TurnFault.TheVariants.{OutOfMemory};

    ghost from_gives = { λ _ e. e ≡ OutOfMemory };

    fn from(_refused: AllocError) -> TurnFault {
        TurnFault::OutOfMemory
    }
}

impl From<ServiceFault> for TurnFault {
    ghost use Rattle.std.specs.Prelude.{◌≡◌};
    ghost use Rattle.log_turning.specs.Unturned.{turn_fault};

    ghost from_gives = { λ fault e. e ≡ turn_fault fault };

    fn from(fault: ServiceFault) -> TurnFault {
        match fault {
            ServiceFault::OutOfMemory => TurnFault::OutOfMemory,
            other => TurnFault::Refused(other),
        }
    }
}

/// Why logs are not joined; the place is that of a log among them, from 0. Want of memory may stand in place of any answer.
#[derive(Clone, Copy, Debug, PartialEq, Eq, Error)]
pub enum JoinFault {
    /// Memory was refused.
    #[error("out of memory")]
    OutOfMemory,
    /// The text spells no settings, or settings that open no world.
    #[error("settings refused")]
    Settings,
    /// The bytes are no log of these settings that begins with this rest.
    #[error("{1}")]
    Log(usize, LogFault),
    /// The log is another node's.
    #[error("the log is another node's")]
    OtherNode(usize),
    /// The first log begins with a rest, or a later one with none, or not where the one before it ends.
    #[error("the log does not go on where the one before it ends")]
    NotNext(usize),
}

impl From<AllocError> for JoinFault {
    ghost use Rattle.std.specs.Prelude.{◌≡◌};
    ghost use Rattle.log_turning.specs.declared.fault.JoinFault.TheVariants.{OutOfMemory};

    ghost from_gives = { λ _ e. e ≡ OutOfMemory };

    fn from(_refused: AllocError) -> JoinFault {
        JoinFault::OutOfMemory
    }
}

/// Why logs are not those that their node left; the place is that of a log among them, from 0. Want of memory may stand in place of any
/// answer.
#[derive(Clone, Copy, Debug, PartialEq, Eq, Error)]
pub enum RestFault {
    /// Memory was refused.
    #[error("out of memory")]
    OutOfMemory,
    /// The log begins with another rest than its node left after the one before it.
    #[error("the log does not begin with what its closed logs left")]
    Other(usize),
}

impl From<AllocError> for RestFault {
    ghost use Rattle.std.specs.Prelude.{◌≡◌};
    ghost use Rattle.log_turning.specs.declared.fault.RestFault.TheVariants.{OutOfMemory};

    ghost from_gives = { λ _ e. e ≡ OutOfMemory };

    fn from(_refused: AllocError) -> RestFault {
        RestFault::OutOfMemory
    }
}
