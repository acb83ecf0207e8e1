//! Why a node is not served.

use kept_logs::LogFault;
use std::alloc::AllocError;
use thiserror::Error;
use world_settings::Untaken;

/// Why a node is not served: the first cause in the order of this list, where a log's own faults come before `OtherNode`. Want
/// of memory may stand in place of any answer.
#[derive(Clone, Copy, Debug, PartialEq, Eq, Error)]
pub enum ServiceFault {
    /// Memory was refused.
    #[error("out of memory")]
    OutOfMemory,
    /// The text spells no settings, or settings that open no world.
    #[error("settings refused")]
    Settings,
    /// The settings have no such node.
    #[error("the settings have no such node")]
    NoSuchNode,
    /// What the log begins with, after closed ones, is no rest of this node under these settings, or is damaged.
    #[error("what the log begins with is no rest of this node")]
    Rest,
    /// The bytes are no log of these settings.
    #[error("{0}")]
    Log(LogFault),
    /// The log is another node's.
    #[error("the log is another node's")]
    OtherNode,
    /// The node does not make the call of the record at this place, from 0, as the log has it: it refuses the call, or sends
    /// other bytes. The rules have changed since, or the log was.
    #[error("the record at byte {0} is no call that the node makes")]
    NotMade(usize),
}

impl From<AllocError> for ServiceFault {
    ghost use Rattle.std.specs.Prelude.{◌≡◌};
    ghost use Rattle.node_service.specs.declared.fault.ServiceFault.TheVariants.{OutOfMemory};

    ghost from_gives = { λ _ e. e ≡ OutOfMemory };

    fn from(_refused: AllocError) -> ServiceFault {
        ServiceFault::OutOfMemory
    }
}

impl From<Untaken> for ServiceFault {
    ghost use Rattle.std.specs.Prelude.{◌≡◌};
    ghost use Rattle.node_service.specs.Refused.{untaken_said};

    ghost from_gives = { λ why e. e ≡ untaken_said why };

    fn from(why: Untaken) -> ServiceFault {
        match why {
            Untaken::OutOfMemory => ServiceFault::OutOfMemory,
            Untaken::Settings | Untaken::World(_) => ServiceFault::Settings,
        }
    }
}
