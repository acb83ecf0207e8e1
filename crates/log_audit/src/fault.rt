//! Why there is nothing to be judged.

ghost use Rattle.std.specs.Prelude.{◌≡◌};
ghost use Rattle.log_audit.specs.declared.fault.AuditFault.TheVariants.{OutOfMemory};

use kept_logs::LogFault;
use std::alloc::{AllocError, AllocFailed};
use thiserror::Error;
use world_settings::Untaken;
use world_setup::WorldFault;

/// What is wrong with what a caller calls a call.
#[derive(Clone, Copy, Debug, PartialEq, Eq, Error)]
pub enum ReferenceFault {
    /// The call is no submission.
    #[error("no submission, and it has a reference")]
    NoSubmission,
    /// It has more than 64 bytes.
    #[error("its reference has more than 64 bytes")]
    TooLong,
    /// An earlier submission has it.
    #[error("an earlier submission has its reference")]
    Reused,
}

/// Why there is nothing to be judged.
#[derive(Clone, Copy, Debug, PartialEq, Eq, Error)]
pub enum AuditFault {
    /// Memory was refused.
    #[error("out of memory")]
    OutOfMemory,
    /// The settings spell none.
    #[error("settings refused")]
    Settings,
    /// No world takes the settings.
    #[error("settings refused: {0}")]
    World(WorldFault),
    /// The log at this place, from 0, is none.
    #[error("{fault}")]
    Log {
        /// The place of the log among those handed in.
        place: usize,
        /// What is wrong with it.
        fault: LogFault,
    },
    /// The log at this place, from 0, has a reference that no node keeps.
    #[error("call {call}: {fault}")]
    Reference {
        /// The place of the log among those handed in.
        place: usize,
        /// The number of the call that has it, from 1; 0 where it stands in what the log begins with.
        call: u64,
        /// What is wrong with it.
        fault: ReferenceFault,
    },
    /// The run has no schedule: an event has no line in one, or a line of the settings would divide it.
    #[error("the run has no schedule")]
    NoLine,
}

impl From<AllocError> for AuditFault {
    ghost from_gives = { λ _ fault. fault ≡ OutOfMemory };

    fn from(_refused: AllocError) -> AuditFault {
        AuditFault::OutOfMemory
    }
}

impl From<Untaken> for AuditFault {
    ghost use Rattle.log_audit.specs.Refused.{untaken_fault};

    ghost from_gives = { λ why fault. fault ≡ untaken_fault why };

    fn from(why: Untaken) -> AuditFault {
        match why {
            Untaken::OutOfMemory => AuditFault::OutOfMemory,
            Untaken::Settings => AuditFault::Settings,
            Untaken::World(why) => AuditFault::World(why),
        }
    }
}

impl<T: Drop> From<AllocFailed<T>> for AuditFault {
    ghost from_gives = { λ _ fault. fault ≡ OutOfMemory };

    fn from(_refused: AllocFailed<T>) -> AuditFault {
        AuditFault::OutOfMemory
    }
}
