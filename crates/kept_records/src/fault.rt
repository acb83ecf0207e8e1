//! Why bytes are no record of this project.

ghost use Rattle.std.specs.Prelude.{◌≡◌};

use std::alloc::{AllocError, AllocFailed};
use thiserror::Error;

/// Why bytes are not read as a journal or a book. The causes are judged in the order Short, NotABook,
/// Version, and then the first faulty record decides, by BadRecord before NumberOrder. A place is that of
/// the record's first byte, from 0 in the bytes handed in.
#[derive(Clone, Copy, Debug, PartialEq, Eq, Error)]
pub enum RecordFault {
    /// There is no memory for what the bytes keep.
    #[error("out of memory")]
    OutOfMemory,
    /// There are fewer bytes than a head has: 9 for a journal, 29 for a book.
    #[error("shorter than the head of a record, 9 bytes of a journal and 29 of a book")]
    Short,
    /// The version is none that is read: 1, 2, or, of a journal that goes by another rule of retries than
    /// that of its settings, 3.
    #[error("the version of a record is none that is read")]
    Version,
    /// The record at this place is cut off, is beyond the cap, or has a part that cannot stand there; or
    /// bytes follow the last record. At 9 of a journal of version 3 this is its rule of retries.
    #[error("the record at byte {0} is bad")]
    BadRecord(usize),
    /// The entry at this place of a journal is good, but has not the next number.
    #[error("the entry at byte {0} has not the next number")]
    NumberOrder(usize),
    /// The first two bytes, the pharmacy or payer, or the first serial are not those asked for.
    #[error("not the record that was asked for")]
    NotABook,
}

impl From<AllocError> for RecordFault {
    ghost use Rattle.kept_records.specs.declared.fault.RecordFault.TheVariants.{OutOfMemory};

    ghost from_gives = { λ _ e. e ≡ OutOfMemory };

    fn from(_error: AllocError) -> RecordFault {
        RecordFault::OutOfMemory
    }
}

impl<T: Drop> From<AllocFailed<T>> for RecordFault {
    ghost use Rattle.kept_records.specs.declared.fault.RecordFault.TheVariants.{OutOfMemory};

    ghost from_gives = { λ _ e. e ≡ OutOfMemory };

    fn from(_error: AllocFailed<T>) -> RecordFault {
        RecordFault::OutOfMemory
    }
}
