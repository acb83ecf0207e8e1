//! Why settings and kept rows are refused. Why a request is refused is [`Fault`].

ghost use Rattle.std.specs.Prelude.{◌≡◌};
ghost use Rattle.payer_book.specs.Faults.{row_fault};

use claim_model::Fault;
use std::alloc::AllocError;
use thiserror::Error;

/// Why settings were refused.
#[derive(Clone, Copy, Debug, PartialEq, Eq, Error)]
pub enum SettingFault {
    /// A number lies outside its range.
    #[error("a first serial is 1 to 999,999,999,999, and a cap 1 to what the limits allow")]
    BadSetting,
}

/// Why a kept row is not added. The book is as it was before the call.
#[derive(Clone, Copy, Debug, PartialEq, Eq, Error)]
pub enum RowFault {
    /// There is no memory for the row.
    #[error("out of memory")]
    OutOfMemory,
    /// The book is full; the id is there already; the request is not readable; or the answer is not the one
    /// that the rules give after the rows before it, whatever the plan was.
    #[error("the row cannot stand in this book")]
    BadRow,
}

impl From<AllocError> for RowFault {
    ghost use Rattle.payer_book.specs.declared.fault.RowFault.TheVariants.{OutOfMemory};

    ghost from_gives = { λ _ e. e ≡ OutOfMemory };

    fn from(_refused: AllocError) -> RowFault {
        RowFault::OutOfMemory
    }
}

impl From<Fault> for RowFault {
    ghost from_gives = { λ fault e. e ≡ row_fault fault };

    fn from(fault: Fault) -> RowFault {
        match fault {
            Fault::OutOfMemory => RowFault::OutOfMemory,
            Fault::Refused(_) => RowFault::BadRow,
        }
    }
}
