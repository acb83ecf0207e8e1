//! Numbered packets between pharmacies, switches and payers.
//!
//! An envelope is a head of 18 bytes (`PS`, version, kind, pharmacy, number, length) and the
//! payload, numbers with their high byte first (own). A retry is the same bytes again.
#![tactic(auto)]

mod laws;
mod opening;
mod txn;
mod writing;

pub use laws::{envelope_is_its_text, envelope_reads_back, payload_is_behind_its_head};
pub use opening::{Envelope, EnvelopeFault, HEAD, Kind, LARGEST_PAYLOAD};
pub use txn::TxnId;
pub use writing::{WriteFault, write};
