//! What the versions of records differ in.

ghost use Rattle.std.specs.Prelude.{◌≡◌, true, false, OnOk};
ghost use Rattle.kept_records.specs.Faults.{RefusesAt};
ghost use Rattle.kept_records.specs.Versions.{fits_version};

use crate::fault::RecordFault;
use claim_profile::{RequestFault, read_readable};
use std::alloc::Global;

/// Judges the request of the record at a place: version 1 has one transaction a request.
pub(crate) fn judge_version(
    alloc: Global,
    version: u8,
    place: usize,
    request: &[u8],
) -> Result<(), RecordFault>
    ensures ok { OnOk result (fits_version version request.now ≡ true) }
    ensures fault { RefusesAt place (fits_version version request.now ≡ false) result }
{
    if version != 1 {
        return Ok(());
    }
    match read_readable(alloc, request) {
        Ok(transmission) if transmission.header().count() == 1 => Ok(()),
        Ok(_) | Err(RequestFault::Unreadable) => Err(RecordFault::BadRecord(place)),
        Err(RequestFault::OutOfMemory) => Err(RecordFault::OutOfMemory),
    }
}
