//! What the program alone can find wrong.

use crate::fault::DumpFault;
use thiserror::Error;

/// What the program alone can find wrong.
#[derive(Debug, Drop, Error)]
pub(crate) enum Finding {
    /// The words are wrong.
    #[error("usage: claimdump DIR")]
    Usage,
    /// The input has more than 1 GiB.
    #[error("the input is longer than 1 GiB")]
    LongInput,
    /// The input is refused.
    #[error("{0}")]
    Fault(DumpFault),
}
