//! Why bytes are no transmission, and why an id and a value are no field.

ghost use Rattle.std.specs.Prelude.{◌≡◌};
ghost use Rattle.d0_segments.specs.declared.fault.FramingFault.TheVariants.{OutOfMemory};

use d0_header::HeaderFault;
use std::alloc::{AllocError, AllocFailed};
use thiserror::Error;

/// Why bytes were not read as a transmission: the first fault from the left. A fault of the header
/// comes before all others, a wrong transaction count after all others. Places are byte offsets
/// from 0 in the bytes that were handed in.
#[derive(Clone, Copy, Debug, PartialEq, Eq, Error)]
pub enum FramingFault {
    /// There was no memory for the lists of groups, segments and fields.
    #[error("out of memory")]
    OutOfMemory,
    /// The bytes do not begin with a header.
    #[error("{0}")]
    Header(HeaderFault),
    /// Neither a segment nor a group starts after the header, or no segment after a group
    /// separator: the place of the byte that stands there.
    #[error("no segment starts at byte {0}")]
    NoSegmentStart(usize),
    /// A segment separator is not followed by a field `AM` of exactly two bytes, the segment
    /// identification (111-AM): the place of the segment separator.
    #[error("the segment at byte {0} has no identification")]
    NoSegmentId(usize),
    /// A field has fewer than two bytes before the next separator: the place of its separator.
    #[error("the field at byte {0} has no identifier of two bytes")]
    BadFieldId(usize),
    /// A group separator is followed by another one or by the end: its place.
    #[error("the group at byte {0} is empty")]
    EmptyGroup(usize),
    /// The header's transaction count (109-A9) is not the number of groups.
    #[error("the header says {said} transactions, and there are {found}")]
    CountMismatch { said: u8, found: usize },
}

impl From<AllocError> for FramingFault {
    ghost from_gives = { λ _ e. e ≡ OutOfMemory };

    fn from(_error: AllocError) -> FramingFault {
        FramingFault::OutOfMemory
    }
}

impl<T: Drop> From<AllocFailed<T>> for FramingFault {
    ghost from_gives = { λ _ e. e ≡ OutOfMemory };

    fn from(_error: AllocFailed<T>) -> FramingFault {
        FramingFault::OutOfMemory
    }
}

/// Why an identifier and a value make no field.
#[derive(Clone, Copy, Debug, PartialEq, Eq, Error)]
pub enum FieldFault {
    /// A separator stands in the two bytes of the identifier followed by the value: the place of
    /// the first one, from 0.
    #[error("a separator stands in the field at byte {0}")]
    Separator(usize),
}
