//! Why the program ends, once its words and settings were read.

ghost use Rattle.claimnode.specs.Files.{IsOfFile};

use log_folder::{CloseFault, RepairFault, TakeFault, Unrepaired};
use log_turning::WholeFault;
use node_process::Unserved;
use node_service::ServiceFault;
use std::alloc::{AllocError, Global};
use std::io;
use thiserror::Error;

/// Why the program ends, once its words and settings were read.
#[derive(Debug, Drop, Error)]
pub(crate) enum Finding {
    /// Memory was refused.
    #[error("out of memory")]
    OutOfMemory(#[from] AllocError),
    /// Standard input, standard output or a file failed.
    #[error("{0}")]
    Io(#[from] io::Error),
    /// The file of this name is not opened or written.
    #[error("{0}: {1}")]
    File(String, io::Error),
    /// The settings are refused: what is wrong in them.
    #[error("settings refused: {0}")]
    Settings(String),
    /// The settings have no such node, or are refused.
    #[error("{0}")]
    Service(ServiceFault),
    /// A sync of the log failed, and nobody has looked since: the mark that says so.
    #[error("a sync of the log failed; look at it, and remove {0}")]
    SyncFailed(String),
    /// The log is not taken, and its mark does not stand.
    #[error("{0}")]
    Untaken(TakeFault),
    /// The node is not served to the end of its input.
    #[error("{0}")]
    Unserved(#[from] Unserved),
    /// Nothing is told of a log that is to be repaired.
    #[error("{0}")]
    Untold(#[from] RepairFault),
    /// The log is not repaired, as it is told.
    #[error("{0}")]
    Unrepaired(#[from] Unrepaired),
    /// The log is not closed, and all files have the names that they are to have.
    #[error("{0}")]
    Unclosed(CloseFault),
    /// The logs of the node are not joined.
    #[error("{0}")]
    Unjoined(#[from] WholeFault),
}

impl Finding {
    /// That the file of this name is not opened or written.
    pub(crate) fn of_file(alloc: Global, name: &str, error: io::Error) -> Finding
        ensures { IsOfFile name.now error result }
    {
        match String::from_str(alloc, name) {
            Ok(name) => Finding::File(name, error),
            Err(refused) => Finding::OutOfMemory(refused),
        }
    }
}
