//! Why settings, answers and kept entries are refused. Why a call is refused is [`Fault`](claim_model::Fault).

ghost use Rattle.std.specs.Prelude.{◌≡◌};

use std::alloc::{AllocError, AllocFailed};
use thiserror::Error;

/// Why settings are refused.
#[derive(Clone, Copy, Debug, PartialEq, Eq, Error)]
pub enum SettingFault {
    /// `again` or `tries` is not 1 to 1,000, the cap is not 1 to what the limits allow, or the identity has a separator.
    #[error("again and tries are 1 to 1,000, a cap is 1 to what the limits allow, and an identity has no separator")]
    BadSetting,
}

/// Why an answer does not settle a transaction.
#[derive(Clone, Copy, Debug, PartialEq, Eq, Error)]
pub enum SettleFault {
    /// There is no memory to read the answer.
    #[error("out of memory")]
    OutOfMemory,
    /// The bytes are no answer, or one of another code (103-A3) or count (109-A9) than the request's.
    #[error("the bytes are no answer to this request")]
    Unreadable,
}

/// Why a kept entry is not added.
#[derive(Clone, Copy, Debug, PartialEq, Eq, Error)]
pub enum RowFault {
    /// There is no memory for the entry.
    #[error("out of memory")]
    OutOfMemory,
    /// The journal is full; the request is not readable, or of another provider; or the answer has more
    /// than 32,768 bytes or is none to the request.
    #[error("the entry cannot stand in this journal")]
    BadRow,
}

impl From<AllocError> for SettleFault {
    ghost use Rattle.pharmacy_journal.specs.declared.fault.SettleFault.TheVariants.{OutOfMemory};

    ghost from_gives = { λ _ e. e ≡ OutOfMemory };

    fn from(_error: AllocError) -> SettleFault {
        SettleFault::OutOfMemory
    }
}

impl<T: Drop> From<AllocFailed<T>> for SettleFault {
    ghost use Rattle.pharmacy_journal.specs.declared.fault.SettleFault.TheVariants.{OutOfMemory};

    ghost from_gives = { λ _ e. e ≡ OutOfMemory };

    fn from(_error: AllocFailed<T>) -> SettleFault {
        SettleFault::OutOfMemory
    }
}

impl From<AllocError> for RowFault {
    ghost use Rattle.pharmacy_journal.specs.declared.fault.RowFault.TheVariants.{OutOfMemory};

    ghost from_gives = { λ _ e. e ≡ OutOfMemory };

    fn from(_error: AllocError) -> RowFault {
        RowFault::OutOfMemory
    }
}

impl<T: Drop> From<AllocFailed<T>> for RowFault {
    ghost use Rattle.pharmacy_journal.specs.declared.fault.RowFault.TheVariants.{OutOfMemory};

    ghost from_gives = { λ _ e. e ≡ OutOfMemory };

    fn from(_error: AllocFailed<T>) -> RowFault {
        RowFault::OutOfMemory
    }
}
