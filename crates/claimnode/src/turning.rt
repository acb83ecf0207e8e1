//! A log that is closed, so that its node goes on in a new one.

use crate::file::{Purpose, take};
use crate::finding::Finding;
use crate::words::Words;
use log_folder::{CloseFault, Closing, close_log};
use log_turning::closed_name;

/// Closes the log of a node that does not run, keeps it beside, and begins the one in which the node goes on, under the same name.
/// Killed at any moment it leaves the one or the other (`closing_leaves_a_log`).
///
/// # Errors
/// The node is not served from its log, or runs.
pub(crate) fn turn(
    rt: &HostRuntime,
    words: &Words<'_>,
    log: &str,
    text: &[u8],
) -> Result<(), Finding> {
    let mut disk = take(rt, log, Purpose::Close)?;
    match close_log(rt.alloc(), text, words.node, words.at_size, &mut disk) {
        Ok(Closing::Done(calls)) => {
            let closed = closed_name(rt.alloc(), log, calls)?;
            Ok(println!(rt; "closed {closed}, with {calls} calls so far")?)
        }
        Ok(Closing::Small(size)) => Ok(println!(rt; "not closed: it has {size} bytes")?),
        Err(CloseFault::Unlinked(calls, error)) => {
            Err(Finding::File(closed_name(rt.alloc(), log, calls)?, error))
        }
        Err(fault) => Err(Finding::Unclosed(fault)),
    }
}
