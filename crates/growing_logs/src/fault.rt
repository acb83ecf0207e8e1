//! Why logs are not taken over.

ghost use Rattle.std.specs.Prelude.{◌≡◌};
ghost use Rattle.growing_logs.specs.declared.fault.GrowFault.TheVariants.{OutOfMemory, Unread};
ghost use Rattle.growing_logs.specs.Faults.{unreplaced, untaken};

use log_growth::OverFault;
use log_turning::WholeFault;
use replaced_files::{ReplaceFault, TakeFault};
use std::alloc::{AllocError, AllocFailed};
use std::io;

/// Why logs are not taken over. A log is named by its place. Want of memory may stand in place of any answer.
#[derive(Debug, Drop)]
pub enum GrowFault {
    /// Memory was refused.
    OutOfMemory,
    /// Standard output failed.
    Output(io::Error),
    /// A log is not read.
    Unread(WholeFault),
    /// Another process has this log.
    Busy(usize),
    /// A call of the system failed for the file of this log.
    File(usize, io::Error),
    /// This log does not go over, whatever rows there are.
    Stays(usize, OverFault),
    /// A request in this log, which was rejected, has a text that no settings spell.
    Unspelled(usize),
    /// Some log does not go over, so none was changed.
    SomeStay,
}

impl From<AllocError> for GrowFault {
    ghost from_gives = { λ _ e. e ≡ OutOfMemory };

    fn from(_refused: AllocError) -> GrowFault {
        GrowFault::OutOfMemory
    }
}

impl<T: Drop> From<AllocFailed<T>> for GrowFault {
    ghost from_gives = { λ _ e. e ≡ OutOfMemory };

    fn from(_refused: AllocFailed<T>) -> GrowFault {
        GrowFault::OutOfMemory
    }
}

impl From<WholeFault> for GrowFault {
    ghost from_gives = { λ fault e. e ≡ Unread fault };

    fn from(fault: WholeFault) -> GrowFault {
        GrowFault::Unread(fault)
    }
}

impl From<TakeFault> for GrowFault {
    ghost from_gives = { λ fault e. e ≡ untaken fault };

    fn from(fault: TakeFault) -> GrowFault {
        match fault {
            TakeFault::Io(place, error) => GrowFault::File(place, error),
            TakeFault::Busy(place) => GrowFault::Busy(place),
        }
    }
}

impl From<ReplaceFault> for GrowFault {
    ghost from_gives = { λ fault e. e ≡ unreplaced fault };

    fn from(fault: ReplaceFault) -> GrowFault {
        match fault {
            ReplaceFault::Io(place, error) => GrowFault::File(place, error),
            ReplaceFault::SomeStay => GrowFault::SomeStay,
        }
    }
}

impl From<io::Error> for GrowFault {
    ghost use Rattle.growing_logs.specs.declared.fault.GrowFault.TheVariants.{Output};

    ghost from_gives = { λ error e. e ≡ Output error };

    fn from(error: io::Error) -> GrowFault {
        GrowFault::Output(error)
    }
}
