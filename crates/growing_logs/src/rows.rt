//! The rows of routes by which what nodes have as rejected stays rejected.

ghost use Rattle.std.specs.Prelude.{◌≡◌, ◌++◌, [], IfOk, IfErr, OnOk};
ghost use Rattle.settings_digest.specs.Digests.{AreOf, under};
ghost use Rattle.log_growth.specs.Over.{StaysFor};
ghost use Rattle.growing_logs.specs.Rejecting.{AreAllRows, AreRowsFor, AreRowsOf, HasNoRows, IsNoMemory};

use crate::fault::GrowFault;
use crate::logs::Logs;
use log_growth::{Gone, Grown, OverFault, go_over, rerouted};
use rejected_rows::rows_of;
use std::alloc::Global;

/// Reads this many logs, of which none was read, the first first, and gives the rows for all of them, where the text spells the new
/// settings.
///
/// # Errors
/// The first log that is not read, stays, or has a row that settings cannot spell.
pub fn rows_for<L: Logs>(
    alloc: Global,
    grown: &Grown,
    text: &[u8],
    count: usize,
    logs: &mut L,
) -> Result<Vec<u8>, GrowFault>
    requires new { AreOf text.now grown.now.new }
    requires unread { L.found logs.old ≡ [] }
    ensures rows { IfOk result (λ rows. AreAllRows grown.now text.now (L.found logs.new) rows.items) }
    ensures none { IfErr result (λ why. HasNoRows grown.now text.now (L.found logs.new) (L.has_failed logs.new) why) }
{
    let mut rows = Vec::new(alloc);
    for place in 0..count {
        let bytes = logs.read(place)?;
        match rows_of_log(alloc, grown, text, bytes.as_slice()) {
            Ok(Some(more)) => rows.extend_from_slice(more.as_slice())?,
            Ok(None) => return Err(GrowFault::Unspelled(place)),
            Err(OverFault::OutOfMemory) => return Err(GrowFault::OutOfMemory),
            Err(fault) => return Err(GrowFault::Stays(place, fault)),
        }
    }
    Ok(rows)
}

/// The rows for the log that bytes are, which has to go over but for what they let stay rejected. None where settings cannot spell one
/// of them.
fn rows_of_log(
    alloc: Global,
    grown: &Grown,
    text: &[u8],
    bytes: &[u8],
) -> Result<Option<Vec<u8>>, OverFault>
    requires { AreOf text.now grown.now.new }
    ensures rows { IfOk result (λ rows. AreRowsFor grown.now text.now bytes.now rows) }
    ensures stays { IfErr result (λ why. StaysFor (under grown.now.old bytes.now) text.now bytes.now why) }
{
    match go_over(alloc, &grown.old, &grown.new, text, bytes) {
        Ok(gone) => rows_in(alloc, text, &gone),
        Err(fault) => Err(fault),
    }
}

/// The rows of a log that goes over, or is there.
fn rows_in(alloc: Global, text: &[u8], gone: &Gone) -> Result<Option<Vec<u8>>, OverFault>
    ensures rows { IfOk result (λ rows. AreRowsOf text.now gone.now rows) }
    ensures stays { IfErr result IsNoMemory }
{
    match gone {
        Gone::Already(_) => Ok(Some(Vec::new(alloc))),
        // Its node opened from these bytes, so it opens again, unless memory is refused.
        Gone::Over(node, written) => match rerouted(alloc, text, *node, written.as_slice()) {
            Ok(entries) => Ok(rows_of(alloc, entries.as_slice())?),
            Err(_) => Err(OverFault::OutOfMemory),
        },
    }
}
