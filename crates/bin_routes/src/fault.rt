//! Why rows make no table.

ghost use Rattle.std.specs.Prelude.{◌≡◌};
ghost use Rattle.bin_routes.specs.declared.fault.RoutesFault.TheVariants.{OutOfMemory};

use std::alloc::{AllocError, AllocFailed};
use thiserror::Error;

/// What is wrong with the first bad row. Rows count from 0.
#[derive(Clone, Copy, Debug, PartialEq, Eq, Error)]
pub enum RoutesFault {
    /// Memory ran out.
    #[error("out of memory")]
    OutOfMemory,
    /// The BIN is not six digits.
    #[error("row {0}: a BIN has six digits")]
    BadBin(usize),
    /// An earlier row has the same BIN, and the two have the same processor control number or both have none.
    #[error("row {0}: an earlier row is for the same BIN and processor control number")]
    SameRow(usize),
    /// The payer's number is zero, over the number of payers, or over 9,999.
    #[error("row {0}: there is no such payer")]
    NoSuchPayer(usize),
    /// The processor control number has over ten bytes, a separator or a trailing space.
    #[error("row {0}: a processor control number has at most 10 bytes, no separator and no space at its end")]
    BadPcn(usize),
}

impl From<AllocError> for RoutesFault {
    ghost from_gives = { λ _ e. e ≡ OutOfMemory };

    fn from(_error: AllocError) -> RoutesFault {
        RoutesFault::OutOfMemory
    }
}

impl<T: Drop> From<AllocFailed<T>> for RoutesFault {
    ghost from_gives = { λ _ e. e ≡ OutOfMemory };

    fn from(_error: AllocFailed<T>) -> RoutesFault {
        RoutesFault::OutOfMemory
    }
}
