//! The framing of NCPDP Telecommunication D.0 transmissions: groups, segments and fields between separators.
//! Reading lends every field from the bytes that were handed in, and writing gives the very bytes back.
//! Bytes that are no transmission are refused with the first fault from the left.
#![tactic(auto)]

mod checking;
mod cursor;
mod fault;
mod field;
mod framed;
mod header;
mod lanes;
mod laws;
mod passing;
mod reading;
mod segment;
mod separator;
mod tail;
mod transmission;
mod writing;

pub use checking::{check_request, check_response};
pub use cursor::{Cursor, SegmentAt};
pub use fault::{FieldFault, FramingFault};
pub use field::Field;
pub use framed::Framed;
pub use header::Header;
pub use laws::{first_fault_laws, request_laws, response_laws};
pub use reading::{read_request, read_response};
pub use segment::Segment;
pub use separator::{FIELD_SEPARATOR, GROUP_SEPARATOR, SEGMENT_SEPARATOR};
pub use transmission::Transmission;
pub use writing::write;
