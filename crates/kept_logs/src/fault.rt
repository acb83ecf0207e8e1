//! Why bytes are no log.

ghost use Rattle.std.specs.Prelude.{◌≡◌};

use std::alloc::{AllocError, AllocFailed};
use thiserror::Error;

/// Why bytes are not read as a log. A head is judged from its front, so `XX` is `NotALog` and `P` is `Short`; then its check
/// sum, its kind of node and its digest, in this order; then the first faulty record decides. A place is that of the
/// record's first byte, from 0 in the bytes handed in. Want of memory may stand in place of any answer.
#[derive(Clone, Copy, Debug, PartialEq, Eq, Error)]
pub enum LogFault {
    /// There is no memory for what the bytes keep.
    #[error("out of memory")]
    OutOfMemory,
    /// The bytes end before the head does, which has 46.
    #[error("shorter than the head of a log, 46 bytes")]
    Short,
    /// The first two bytes are not `PL`.
    #[error("not a log")]
    NotALog,
    /// The version is neither 1 nor 2.
    #[error("the version of a log is 1 or 2")]
    Version,
    /// The head's check sum is not that of its node and its digest.
    #[error("the head of the log is damaged")]
    DamagedHead,
    /// The kind of node is none that there is.
    #[error("the log is of no kind of node")]
    NoNode,
    /// The digest is not that of the settings asked for.
    #[error("the log is of other settings")]
    OtherSettings,
    /// The record at this place is not the next one as it was written, or has a length that no record has.
    #[error("the record at byte {0} is damaged")]
    Damaged(usize),
    /// The record at this place is whole and undamaged, and no call of a node.
    #[error("the record at byte {0} is no call")]
    BadRecord(usize),
}

impl From<AllocError> for LogFault {
    ghost use Rattle.kept_logs.specs.declared.fault.LogFault.TheVariants.{OutOfMemory};

    ghost from_gives = { λ _ e. e ≡ OutOfMemory };

    fn from(_error: AllocError) -> LogFault {
        LogFault::OutOfMemory
    }
}

impl<T: Drop> From<AllocFailed<T>> for LogFault {
    ghost use Rattle.kept_logs.specs.declared.fault.LogFault.TheVariants.{OutOfMemory};

    ghost from_gives = { λ _ e. e ≡ OutOfMemory };

    fn from(_error: AllocFailed<T>) -> LogFault {
        LogFault::OutOfMemory
    }
}
