//! Why there is no report.

ghost use Rattle.std.specs.Prelude.{◌≡◌};
ghost use Rattle.claim_reports.specs.declared.fault.ReportFault.TheVariants.{OutOfMemory};

use std::alloc::{AllocError, AllocFailed};
use thiserror::Error;

/// Why there is no report.
#[derive(Clone, Copy, Debug, PartialEq, Eq, Error)]
pub enum ReportFault {
    /// Memory was refused.
    #[error("out of memory")]
    OutOfMemory,
    /// A table, counted from 1, is no CSV whose rows all have as many columns as its names.
    #[error("table {0} is no CSV whose rows have the columns that are named")]
    NotCsv(u64),
    /// A table, counted from 1, has no column of this name.
    #[error("table {0} has no column {1}")]
    NoColumn(u64, &'static str),
    /// A table, counted from 1, has a column of this name already.
    #[error("table {0} has a column {1} already")]
    HasColumn(u64, &'static str),
    /// In a table, counted from 1, the value of this column is none of its kind in this row, counted from 1.
    #[error("table {0} row {1} column {2}: no value of its kind")]
    BadValue(u64, u64, &'static str),
    /// A sum has more than 64 bits.
    #[error("a sum has more than 64 bits")]
    TooLarge,
    /// An authorization is paid for the second time, by this payment or reversal of the pharmacy, counted from 1.
    #[error("payment or reversal {0} of the pharmacy pays an authorization again")]
    PaidAgain(u64),
    /// A payment or reversal of the pharmacy, counted from 1, reverses a payment that does not stand.
    #[error("payment or reversal {0} of the pharmacy reverses a payment that does not stand")]
    NotStanding(u64),
}

impl From<AllocError> for ReportFault {
    ghost from_gives = { λ _ e. e ≡ OutOfMemory };

    fn from(_refused: AllocError) -> ReportFault {
        ReportFault::OutOfMemory
    }
}

impl<T: Drop> From<AllocFailed<T>> for ReportFault {
    ghost from_gives = { λ _ e. e ≡ OutOfMemory };

    fn from(_refused: AllocFailed<T>) -> ReportFault {
        ReportFault::OutOfMemory
    }
}
