//! Why lines are no schedule, and why events have no lines.

ghost use Rattle.std.specs.Prelude.{◌≡◌};
ghost use Rattle.schedule.specs.declared.fault.ScheduleFault.TheVariants.{OutOfMemory};
ghost use Rattle.schedule.specs.declared.fault.TextFault.TheVariants as text;

use std::alloc::{AllocError, AllocFailed};
use thiserror::Error;

/// Why lines are no schedule.
#[derive(Clone, Copy, Debug, PartialEq, Eq, Error)]
pub enum ScheduleFault {
    /// Memory was refused.
    #[error("out of memory")]
    OutOfMemory,
    /// The line of this number, from 1, is the first that spells no event. Lines that are skipped are counted.
    #[error("line {0} refused")]
    Line(u64),
}

impl From<AllocError> for ScheduleFault {
    ghost from_gives = { λ _ fault. fault ≡ OutOfMemory };

    fn from(_refused: AllocError) -> ScheduleFault {
        ScheduleFault::OutOfMemory
    }
}

impl<T: Drop> From<AllocFailed<T>> for ScheduleFault {
    ghost from_gives = { λ _ fault. fault ≡ OutOfMemory };

    fn from(_refused: AllocFailed<T>) -> ScheduleFault {
        ScheduleFault::OutOfMemory
    }
}

/// Why events have no text.
#[derive(Clone, Copy, Debug, PartialEq, Eq, Error)]
pub enum TextFault {
    /// Memory was refused.
    #[error("out of memory")]
    OutOfMemory,
    /// An event has no line: it changes the plan for a product without a byte, delivers a packet, with an advice or
    /// without, whose number has more than 18 digits, or changes a rule of retries to bytes that are not the numbers of 1
    /// to 4,096 switches, two bytes each.
    #[error("an event has no line in a schedule")]
    NoLine,
}

impl From<AllocError> for TextFault {
    ghost from_gives = { λ _ fault. fault ≡ text.OutOfMemory };

    fn from(_refused: AllocError) -> TextFault {
        TextFault::OutOfMemory
    }
}

impl<T: Drop> From<AllocFailed<T>> for TextFault {
    ghost from_gives = { λ _ fault. fault ≡ text.OutOfMemory };

    fn from(_refused: AllocFailed<T>) -> TextFault {
        TextFault::OutOfMemory
    }
}
