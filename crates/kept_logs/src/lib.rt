//! The logs of nodes as bytes, both ways: what a host appends to a file before it sends, and what is read back of a
//! file whose end is cut off.
//!
//! The format is own to this project; numbers of several bytes have their high byte first.
#![tactic(auto)]

mod appending;
mod calls;
mod digest;
mod expected_bytes;
mod fault;
mod frames;
mod heads;
mod kept;
mod laws;
mod logs;
mod making;
mod nodes;
mod records;
mod references;
mod referring;
mod rests;
mod stamps;
mod sums;
mod version;

pub use appending::{Appended, append_records};
pub use digest::SettingsDigest;
pub use fault::LogFault;
pub use frames::behind_record;
pub use kept::{KeptLog, KeptRecord, read_kept};
pub use laws::{log_is_its_text, log_reads_back, log_takes_one_more, rests_read_back};
pub use logs::{ReadLog, place_of, read_log, record_bytes, write_log};
pub use making::{MadeLog, make_as_read};
pub use references::{Reference, note_reference};
pub use rests::{Beginning, Rest, begins, calls_before, calls_told, read_rest, write_rest};
pub use stamps::Stamp;
pub use version::{LogVersion, is_first};
