//! The repair of a damaged log: what stands after the damage is told, and is cut off where its place was typed back.

use crate::file::{Purpose, take};
use crate::finding::Finding;
use crate::words::Words;
use log_folder::repair_log;

/// Tells what stands after the damage of a log, or cuts it off where its place was typed back.
///
/// # Errors
/// The log is no log of the node under these settings, is damaged and stays so, or is not damaged and was to be cut.
pub(crate) fn repair(
    rt: &HostRuntime,
    words: &Words<'_>,
    log: &str,
    text: &[u8],
) -> Result<(), Finding> {
    let mut disk = take(rt, log, Purpose::Mend)?;
    let repaired = repair_log(rt.alloc(), text, words.node, words.cut_at, &mut disk)?;
    for told in repaired.told.as_slice() {
        println!(rt; "{told}")?;
    }
    Ok(repaired.ended?)
}
