//! Why bytes are no header.

use thiserror::Error;

/// What is wrong with the first bytes of a transmission. Of several causes the one that stands first here is told.
#[derive(Clone, Copy, Debug, PartialEq, Eq, Error)]
pub enum HeaderFault {
    /// There are fewer bytes than a header has.
    #[error("the header is cut off")]
    Short,
    /// The BIN number (101-A1) is not six digits. Only a request has one.
    #[error("the BIN number is not six digits")]
    BadBin,
    /// The transaction count (109-A9) is not `1`, `2`, `3` or `4`.
    #[error("the transaction count is not 1 to 4")]
    BadCount,
    /// The date of service (401-D1) is not eight digits.
    #[error("the date of service is not eight digits")]
    DateNotDigits,
    /// A separator stands in the header: the place of the first one, in bytes from 0.
    #[error("a separator stands in the header at byte {0}")]
    Separator(usize),
}
